// What a run came to, without numbers.
ghost use Rattle.std.specs.Prelude.{◌≡◌};

use nextest_run_events_counters::{FinalRunStats, RunFailureStep};

/// What a run came to, or all sub-runs of a stress run. Of several outcomes the highest counts:
/// `NoTestsRun` is below `Success`, that below `Cancelled`, that below `Failed`, and within the
/// last two the tests are below the scripts.
#[derive(Clone, Copy, Debug, PartialEq, Eq)]
pub enum RunOutcome {
    /// All that was to run passed.
    Success,
    /// No test was run, nothing failed and nothing was cut short.
    NoTestsRun,
    /// The run was cut short: nothing failed, or a reason from outside stands over what failed.
    Cancelled {
        /// At what.
        step: RunFailureStep,
    },
    /// Something failed.
    Failed {
        /// What.
        step: RunFailureStep,
    },
}

impl RunOutcome {
    ghost use Rattle.nextest_run_events_outcomes.specs.Outcome.{outcome_of, rank, higher_of, IsHighest};

    /// What a run with this summary came to.
    pub fn from_final_stats(stats: FinalRunStats) -> Self
        ensures { result ≡ outcome_of stats }
    {
        match stats {
            FinalRunStats::Success => RunOutcome::Success,
            FinalRunStats::NoTestsRun => RunOutcome::NoTestsRun,
            FinalRunStats::Cancelled { reason: _, kind } => {
                RunOutcome::Cancelled { step: kind.step() }
            }
            FinalRunStats::Failed { kind } => RunOutcome::Failed { step: kind.step() },
        }
    }

    /// The higher of two outcomes.
    pub fn combine(self, other: Self) -> Self
        ensures { result ≡ higher_of self other }
    {
        if self.rank() < other.rank() {
            other
        } else {
            self
        }
    }

    /// What sub-runs with these outcomes come to: the highest, or `NoTestsRun` where there is none.
    pub fn of_sub_runs(outcomes: &[RunOutcome]) -> Self
        ensures { IsHighest outcomes.now result }
    {
        let mut highest = RunOutcome::NoTestsRun;
        for outcome in outcomes {
            highest = highest.combine(*outcome);
        }
        highest
    }

    // How high an outcome is.
    fn rank(self) -> u8
        ensures { result ≡ rank self }
    {
        match self {
            RunOutcome::NoTestsRun => 0,
            RunOutcome::Success => 1,
            RunOutcome::Cancelled { step } => match step {
                RunFailureStep::Test => 2,
                RunFailureStep::SetupScript => 3,
            },
            RunOutcome::Failed { step } => match step {
                RunFailureStep::Test => 4,
                RunFailureStep::SetupScript => 5,
            },
        }
    }
}

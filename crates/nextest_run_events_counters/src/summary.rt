// What the counters of a run come to.
ghost use Rattle.std.specs.Prelude.{◌≡◌};

use nextest_run_events_results::CancelReason;

/// What a run failed at or was cut short at.
#[derive(Clone, Copy, Debug, PartialEq, Eq)]
pub enum RunStatsFailureKind {
    /// A setup script.
    SetupScript,
    /// A test.
    Test {
        /// How many tests were to run.
        initial_run_count: usize,
        /// How many of them did not run to their end.
        not_run: usize,
    },
}

impl RunStatsFailureKind {
    ghost use Rattle.nextest_run_events_counters.specs.Summary.{step_of};

    /// Which of the two it is, without numbers.
    pub fn step(&self) -> RunFailureStep
        ensures { result ≡ step_of self.now }
    {
        match self {
            RunStatsFailureKind::SetupScript => RunFailureStep::SetupScript,
            RunStatsFailureKind::Test { .. } => RunFailureStep::Test,
        }
    }
}

/// The step at which a run failed or was cut short. Where several come together the later one here
/// counts.
#[derive(Clone, Copy, Debug, PartialEq, Eq, PartialOrd, Ord)]
pub enum RunFailureStep {
    /// The tests.
    Test,
    /// The setup scripts.
    SetupScript,
}

/// What the counters of a run come to.
#[derive(Clone, Copy, Debug, PartialEq, Eq)]
pub enum FinalRunStats {
    /// All that was to run passed.
    Success,
    /// No test was to run.
    NoTestsRun,
    /// The run was cut short from outside, with no failure of its own or under a reason of the
    /// outside.
    Cancelled {
        /// Why, if a reason stands.
        reason: Option<CancelReason>,
        /// At what.
        kind: RunStatsFailureKind,
    },
    /// A script or a test failed.
    Failed {
        /// Which of the two.
        kind: RunStatsFailureKind,
    },
}

// The counters of a stress run.
ghost use Rattle.std.specs.Prelude.{◌≡◌};

use super::stress_count::StressIndex;
use nextest_run_events_counters::FinalRunStats;

/// The counters of a stress run.
#[derive(Clone, Copy, Debug, PartialEq, Eq)]
pub struct StressRunStats {
    /// How many sub-runs were completed, and of how many.
    pub completed: StressIndex,
    /// Sub-runs that succeeded.
    pub success_count: u32,
    /// Sub-runs that failed.
    pub failed_count: u32,
    /// What the counters of the last sub-run came to.
    pub last_final_stats: FinalRunStats,
}

impl StressRunStats {
    ghost use Rattle.nextest_run_events_outcomes.specs.Finished.{stress_summary_of};

    /// What the counters come to at the end. A last sub-run that failed counts only by
    /// `failed_count`.
    pub fn summarize_final(&self) -> StressFinalRunStats
        ensures { result ≡ stress_summary_of self.now }
    {
        if self.failed_count > 0 {
            return StressFinalRunStats::Failed;
        }
        match self.last_final_stats {
            FinalRunStats::Cancelled { .. } => StressFinalRunStats::Cancelled,
            FinalRunStats::NoTestsRun => StressFinalRunStats::NoTestsRun,
            FinalRunStats::Success | FinalRunStats::Failed { .. } => StressFinalRunStats::Success,
        }
    }
}

/// What the counters of a stress run come to.
#[derive(Clone, Copy, Debug, PartialEq, Eq)]
pub enum StressFinalRunStats {
    /// No sub-run failed, and the last was not cut short.
    Success,
    /// No sub-run failed, and the last had no test to run.
    NoTestsRun,
    /// No sub-run failed, and the last was cut short.
    Cancelled,
    /// A sub-run failed.
    Failed,
}

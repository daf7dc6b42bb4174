// The counters of a finished run.
ghost use Rattle.std.specs.Prelude.{◌≡◌};

use super::stress_stats::StressRunStats;
use nextest_run_events_counters::{FinalRunStats, RunStats};

/// The counters of a finished run.
#[derive(Clone, Copy, Debug, PartialEq, Eq)]
pub enum RunFinishedStats {
    /// Of a run of its own.
    Single(RunStats),
    /// Of a stress run.
    Stress(StressRunStats),
}

impl RunFinishedStats {
    ghost use Rattle.nextest_run_events_outcomes.specs.Finished.{final_stats_of};

    /// What the counters of the run come to, of a stress run those of its last sub-run.
    pub fn final_stats(&self) -> FinalRunStats
        ensures { result ≡ final_stats_of self.now }
    {
        match self {
            RunFinishedStats::Single(stats) => stats.summarize_final(),
            RunFinishedStats::Stress(stats) => stats.last_final_stats,
        }
    }
}

// How far a stress run is.
ghost use Rattle.std.specs.Prelude.{◌≡◌, IfOk, option_map};

use super::nonzero_duration::NonZeroDuration;
use super::stress_count::StressCount;
use nextest_text::Text;
use std::alloc::{AllocError, Global};
use std::num::NonZeroU32;
use std::time::Duration;
use uuid::Uuid;

/// How far a stress run is.
#[derive(Clone, Copy, Debug, PartialEq, Eq)]
pub enum StressProgress {
    /// Of one that goes by a number of sub-runs.
    Count {
        /// How many there are.
        total: StressCount,
        /// How long the sub-runs took so far.
        elapsed: Duration,
        /// How many were completed.
        completed: u32,
    },
    /// Of one that goes by time.
    Time {
        /// How long it takes.
        total: Duration,
        /// How long the sub-runs took so far.
        elapsed: Duration,
        /// How many were completed.
        completed: u32,
    },
}

/// What a stress run still has to do.
#[derive(Clone, Copy, Debug, PartialEq, Eq)]
pub enum StressRemaining {
    /// So many sub-runs.
    Count(NonZeroU32),
    /// Sub-runs without end.
    Infinite,
    /// Sub-runs for so long.
    Time(NonZeroDuration),
}

impl StressProgress {
    ghost use Rattle.nextest_run_events_outcomes.specs.Progress.{amount_of, remaining_of, completed_of, sub_run_id};

    /// What is still to do: the total less what is completed or elapsed, `None` where that isn't
    /// above 0.
    pub fn remaining(&self) -> Option<StressRemaining>
        ensures { option_map amount_of result ≡ remaining_of self.now }
    {
        match self {
            StressProgress::Count {
                total: StressCount::Count { count },
                completed,
                ..
            } => count
                .get()
                .checked_sub(*completed)
                .and_then(NonZeroU32::new)
                .map(StressRemaining::Count),
            StressProgress::Count {
                total: StressCount::Infinite,
                ..
            } => Some(StressRemaining::Infinite),
            StressProgress::Time { total, elapsed, .. } => total
                .checked_sub(*elapsed)
                .and_then(NonZeroDuration::new)
                .map(StressRemaining::Time),
        }
    }

    /// The id of the next sub-run of the run `run_id`: `RUN:@stress-N`, N being how many were
    /// completed. It fails only on allocation.
    pub fn unique_id(&self, alloc: Global, run_id: &Uuid) -> Result<Text, AllocError>
        ensures { IfOk result (λ text. text ≡ sub_run_id run_id.now self.now) }
    {
        let completed = self.completed();
        Ok(Text::from(format!(in alloc; "{run_id}:@stress-{completed}")?))
    }

    // How many sub-runs were completed.
    fn completed(&self) -> u32
        ensures { result ≡ completed_of self.now }
    {
        match self {
            StressProgress::Count { completed, .. } | StressProgress::Time { completed, .. } =>
                *completed,
        }
    }
}

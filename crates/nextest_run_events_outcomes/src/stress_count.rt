// How many sub-runs a stress run has, and which of them one is.
ghost use Rattle.std.specs.Prelude.{◌≡◌, option_map};
ghost use Rattle.std.specs.NonZero.{non_zero_u32_get};

use std::num::NonZeroU32;
use std::time::Duration;

/// Which sub-run of a stress run one is.
#[derive(Clone, Copy, Debug, PartialEq, Eq, PartialOrd, Ord, Hash)]
pub struct StressIndex {
    /// How many sub-runs came before it.
    pub current: u32,
    /// How many sub-runs there are, where that is known.
    pub total: Option<NonZeroU32>,
}

impl StressIndex {
    /// How many sub-runs there are, as a plain number.
    pub fn total_get(&self) -> Option<u32>
        ensures { result ≡ option_map non_zero_u32_get self.now.total }
    {
        self.total.map(|total| total.get())
    }
}

/// How many sub-runs a stress run has.
#[derive(Clone, Copy, Debug, PartialEq, Eq)]
pub enum StressCount {
    /// This many.
    Count {
        /// The number.
        count: NonZeroU32,
    },
    /// They don't end by themselves.
    Infinite,
}

/// When a stress run ends.
#[derive(Clone, Copy, Debug, PartialEq, Eq)]
pub enum StressCondition {
    /// After so many sub-runs.
    Count(StressCount),
    /// After this time.
    Duration(Duration),
}

//! What a run came to, by itself or over all sub-runs of a stress run, and how far a stress run is.
//!
//! A `RunOutcome` is a summary of counters without its numbers. Of several sub-runs the highest
//! outcome counts, which is the same in any order; `laws` says so.
#![tactic(auto)]

mod finished_stats;
pub mod laws;
mod nonzero_duration;
mod outcome;
mod stress_count;
mod stress_progress;
mod stress_stats;
mod terminate;
mod test_info;
mod test_list;
mod unit_kind;
mod unit_state;

pub use finished_stats::RunFinishedStats;
pub use nonzero_duration::NonZeroDuration;
pub use outcome::RunOutcome;
pub use stress_count::{StressCondition, StressCount, StressIndex};
pub use stress_progress::{StressProgress, StressRemaining};
pub use stress_stats::{StressFinalRunStats, StressRunStats};
pub use terminate::{
    UnitTerminateMethod, UnitTerminateReason, UnitTerminateSignal, UnitTerminatingState,
};
pub use test_info::TestInfoResponse;
pub use test_list::{TestList, TestsNotSeen};
pub use unit_kind::UnitKind;
pub use unit_state::UnitState;

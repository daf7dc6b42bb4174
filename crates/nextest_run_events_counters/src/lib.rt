//! The attempts of a test, what they come to, and the counters of a run with their summary.
//!
//! The types stand here with the rows that say what each finished script and test counts as, and
//! with the summary of a record of counters and the calls that take it. Scripts and tests are
//! counted as they finish.
#![tactic(auto)]

mod counting;
mod execution_description;
mod execution_statuses;
mod roomy_list;
mod run_stats;
mod summary;

pub use execution_description::{ExecutionDescription, final_level_of_result, level_of_result};
pub use execution_statuses::{EmptyStatuses, ExecutionStatuses};
pub use run_stats::RunStats;
pub use summary::{FinalRunStats, RunFailureStep, RunStatsFailureKind};

//! The numbers, timeouts and policies of the configuration: how often a failing test is tried
//! again, how long it may take, how many threads there are, in which order tests run, and what a
//! JUnit report has.
#![tactic(auto)]

mod config_duration;
mod junit;
pub mod laws;
mod number;
mod parse;
mod priority;
mod retries;
mod runs;
mod threads;
mod timeouts;
mod units;

pub use config_duration::ConfigDuration;
pub use junit::{JunitConfig, JunitFlakyFailStatus, MismatchReason, ReportSkipPolicy};
pub use parse::{BadDuration, parse_duration};
pub use priority::{TestPriority, TestPriorityOutOfRange};
pub use retries::RetryPolicy;
pub use threads::{TestGroupConfig, TestThreads, ThreadsRequired};
pub use timeouts::{GlobalTimeout, LeakTimeout, SlowTimeout};

//! How far one run of tests is: the state of a run, kept so that each event takes constant time but
//! for the one that stops the run. It speaks of scripts and tests by their places in the plan, from
//! 0.
#![tactic(auto)]

mod all_tests;
mod copying;
mod keep_attempts;
mod kept_record;
mod kept_records;
mod kept_statuses;
mod progress;
mod recorded;
mod scripts;
mod start_fault;
mod test_progress;
mod test_states;

pub use keep_attempts::KeepAttempts;
pub use kept_record::KeptRecord;
pub use kept_records::KeptRecords;
pub use kept_statuses::KeptStatuses;
pub use progress::Progress;
pub use start_fault::StartFault;

//! How an attempt ended, and why a run was cancelled: the plain results that events, counters and
//! logs share; which test it was, and what a log tells of its end.
#![tactic(auto)]

mod binary_id;
mod cancel_reason;
mod execution_result;
mod instance;
pub mod laws;
mod record;
mod result;
mod signals;

pub use binary_id::RustBinaryId;
pub use cancel_reason::CancelReason;
pub use execution_result::{AbortStatus, ExecutionResult, ExitStatus, FailureStatus};
pub use instance::{OwnedTestInstanceId, TestInstanceId};
pub use record::{Record, RecordOutput};
pub use result::{AbortDescription, ExecutionResultDescription, FailureDescription};
pub use signals::{SIGTERM, signal_name};

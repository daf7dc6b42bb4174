//! What one attempt of a test, or one run of a setup script, left: its output, its errors and how
//! it ended.
#![tactic(auto)]

mod boxed;
mod child_error;
mod error_list;
mod event_time;
mod execute_status;
mod live_error;
mod live_output;
mod output;
mod retry_data;
mod serializable_error;

pub use boxed::Boxed;
pub use child_error::{ChildErrorDescription, ChildStartErrorDescription};
pub use error_list::ErrorList;
pub use event_time::EventTime;
pub use execute_status::{
    ErrorSummary, ExecuteStatus, OutputErrorSlice, SetupScriptEnvMap, SetupScriptExecuteStatus,
};
pub use live_error::{ChildError, ChildFdError, ChildStartError};
pub use live_output::{ChildExecutionOutput, ChildOutput, ChildSplitOutput};
pub use output::{
    ChildExecutionOutputDescription, ChildOutputDescription, ChildSingleOutput, LiveSpec,
    OutputSpec,
};
pub use retry_data::RetryData;
pub use serializable_error::{
    ErrorChain, SerializableError, SerializableErrorSource, SerializableErrorSources,
};

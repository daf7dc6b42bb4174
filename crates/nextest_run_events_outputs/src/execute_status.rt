// One attempt of a test, and one run of a setup script.
use super::boxed::Boxed;
use super::event_time::EventTime;
use super::output::{ChildExecutionOutputDescription, OutputSpec};
use super::retry_data::RetryData;
use nextest_run_events_results::ExecutionResultDescription;
use nextest_text::Text;
use std::collections::BTreeMap;
use std::time::Duration;

/// An error, told twice.
#[derive(Clone, Debug, PartialEq, Eq)]
pub struct ErrorSummary {
    /// In one line.
    pub short_message: Text,
    /// In full, with its causes.
    pub description: Text,
}

// One call drops it, whoever holds it.
impl Drop for ErrorSummary {
    fn drop(self) {
        let Self {
            short_message: _,
            description: _,
        } = self;
    }
}

/// A part of an output that tells of an error.
#[derive(Clone, Debug, PartialEq, Eq)]
pub struct OutputErrorSlice {
    /// The part.
    pub slice: Text,
    /// At which byte of the output it starts.
    pub start: usize,
}

// One call drops it, whoever holds it.
impl Drop for OutputErrorSlice {
    fn drop(self) {
        let Self { slice: _, start: _ } = self;
    }
}

/// One attempt of a test.
#[derive_where(Clone, Debug, PartialEq, Eq; S::ChildOutputDesc)]
pub struct ExecuteStatus<S: OutputSpec> {
    /// When it started, if that is known.
    pub start_time: Option<EventTime>,
    /// Which attempt it is.
    pub retry_data: RetryData,
    /// What came of running it.
    pub output: ChildExecutionOutputDescription<S>,
    /// How it ended.
    pub result: ExecutionResultDescription,
    /// How long it took.
    pub time_taken: Duration,
    /// Whether it counts as slow.
    pub is_slow: bool,
    /// How long was waited before it.
    pub delay_before_start: Duration,
    /// What its error says, if that was summed up.
    pub error_summary: Option<Boxed<ErrorSummary>>,
    /// What its output says of the error, if a part of it was picked.
    pub output_error_slice: Option<Boxed<OutputErrorSlice>>,
}

// One call drops it, whoever holds it.
impl<S: OutputSpec> Drop for ExecuteStatus<S> {
    fn drop(self) {
        let Self {
            start_time: _,
            retry_data: _,
            output: _,
            result: _,
            time_taken: _,
            is_slow: _,
            delay_before_start: _,
            error_summary: _,
            output_error_slice: _,
        } = self;
    }
}

/// One run of a setup script.
#[derive_where(Clone, Debug, PartialEq, Eq; S::ChildOutputDesc)]
pub struct SetupScriptExecuteStatus<S: OutputSpec> {
    /// What came of running it.
    pub output: ChildExecutionOutputDescription<S>,
    /// How it ended.
    pub result: ExecutionResultDescription,
    /// When it started, if that is known.
    pub start_time: Option<EventTime>,
    /// How long it took.
    pub time_taken: Duration,
    /// Whether it counts as slow.
    pub is_slow: bool,
    /// Which variables it sets, if they could be read.
    pub env_map: Option<SetupScriptEnvMap>,
    /// What its error says, if that was summed up.
    pub error_summary: Option<Boxed<ErrorSummary>>,
}

// One call drops it, whoever holds it.
impl<S: OutputSpec> Drop for SetupScriptExecuteStatus<S> {
    fn drop(self) {
        let Self {
            output: _,
            result: _,
            start_time: _,
            time_taken: _,
            is_slow: _,
            env_map: _,
            error_summary: _,
        } = self;
    }
}

/// Variables of the environment that a setup script sets.
#[derive(Clone, Debug, PartialEq, Eq)]
pub struct SetupScriptEnvMap {
    /// Their values by their names.
    pub env_map: BTreeMap<Text, Text>,
}

// One call drops it, whoever holds it.
impl Drop for SetupScriptEnvMap {
    fn drop(self) {
        let Self { env_map: _ } = self;
    }
}

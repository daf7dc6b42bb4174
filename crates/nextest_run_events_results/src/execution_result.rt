// How an attempt ended, as its process gives it, without texts.
ghost use Rattle.std.specs.Prelude.{◌≡◌, IfOk};
ghost use Rattle.nextest_run_events_results.specs.Described.{abort_of, failure_of, described_abort, described_failure, result_description_of};
ghost use Rattle.nextest_run_events_results.specs.Result.{is_success};
ghost use Rattle.nextest_run_events_results.specs.Signals.{signal_name};
ghost use Rattle.nextest_run_events_results.specs.Texts.{kind_name};

use crate::result::{AbortDescription, ExecutionResultDescription, FailureDescription};
use crate::signals::signal_name;
use nextest_config_elements_choices::{LeakTimeoutResult, SlowTimeoutResult};
use nextest_text::Text;
use std::alloc::{AllocError, Global};

/// How a process ended.
#[derive(Clone, Copy, Debug, PartialEq, Eq)]
pub enum ExitStatus {
    /// By itself, with this code.
    Code(i32),
    /// By the signal of this number.
    Signal(i32),
}

/// How a process was ended that did not end by itself.
#[derive(Clone, Copy, Debug, PartialEq, Eq)]
pub enum AbortStatus {
    /// By the signal of Unix of this number.
    UnixSignal(i32),
}

impl AbortStatus {
    /// What ended a process with this exit status; `None` where it ended by itself.
    pub fn extract(exit_status: ExitStatus) -> Option<AbortStatus>
        ensures { result ≡ abort_of exit_status }
    {
        match exit_status {
            ExitStatus::Code(_) => None,
            ExitStatus::Signal(signal) => Some(AbortStatus::UnixSignal(signal)),
        }
    }
}

/// Why an attempt failed.
#[derive(Clone, Copy, Debug, PartialEq, Eq)]
pub enum FailureStatus {
    /// It ended with this code.
    ExitCode(i32),
    /// It was ended.
    Abort(AbortStatus),
}

impl FailureStatus {
    /// The failure of a process with this exit status: what ended it, or its code where it ended by
    /// itself.
    pub fn extract(exit_status: ExitStatus) -> FailureStatus
        ensures { result ≡ failure_of exit_status }
    {
        match exit_status {
            ExitStatus::Code(code) => FailureStatus::ExitCode(code),
            ExitStatus::Signal(signal) => FailureStatus::Abort(AbortStatus::UnixSignal(signal)),
        }
    }
}

/// How an attempt of a test, or a setup script, ended, without texts.
#[derive(Clone, Copy, Debug, PartialEq, Eq)]
pub enum ExecutionResult {
    /// It passed.
    Pass,
    /// It passed and left handles open.
    Leak {
        /// How that is judged.
        result: LeakTimeoutResult,
    },
    /// It failed.
    Fail {
        /// Why.
        failure_status: FailureStatus,
        /// Whether it left handles open too.
        leaked: bool,
    },
    /// It could not be started, or not be watched to its end.
    ExecFail,
    /// It was ended since it took too long.
    Timeout {
        /// How that is judged.
        result: SlowTimeoutResult,
    },
}

impl ExecutionResult {
    /// Whether it is a success: a pass, or a leak or timeout that is judged as a pass.
    pub fn is_success(self) -> bool
        ensures { result ≡ is_success (result_description_of self) }
    {
        match self {
            ExecutionResult::Pass => true,
            ExecutionResult::Leak { result } => result == LeakTimeoutResult::Pass,
            ExecutionResult::Timeout { result } => result == SlowTimeoutResult::Pass,
            ExecutionResult::Fail { .. } | ExecutionResult::ExecFail => false,
        }
    }

    /// The name of its kind.
    pub fn as_static_str(&self) -> &'static str
        ensures { result.now ≡ kind_name (result_description_of self.now) }
    {
        match self {
            ExecutionResult::Pass => "pass",
            ExecutionResult::Leak { .. } => "leak",
            ExecutionResult::Fail { .. } => "fail",
            ExecutionResult::ExecFail => "exec-fail",
            ExecutionResult::Timeout { .. } => "timeout",
        }
    }
}

// The name of a signal as a text of its own.
fn name_of(alloc: Global, signal: i32) -> Result<Option<Text>, AllocError>
    ensures { IfOk result (λ name. name ≡ signal_name signal) }
{
    match signal_name(signal) {
        Some(name) => Ok(Some(Text::from_str(alloc, name)?)),
        None => Ok(None),
    }
}

impl AbortDescription {
    /// An abort, with the name of its signal where that has one. It fails only on allocation.
    pub fn from_status(alloc: Global, status: AbortStatus) -> Result<Self, AllocError>
        ensures { IfOk result (λ abort. abort ≡ described_abort status) }
    {
        let AbortStatus::UnixSignal(signal) = status;
        Ok(AbortDescription::UnixSignal {
            signal,
            name: name_of(alloc, signal)?,
        })
    }
}

impl FailureDescription {
    /// A failure, with the name of its signal where one ended it. It fails only on allocation.
    pub fn from_status(alloc: Global, status: FailureStatus) -> Result<Self, AllocError>
        ensures { IfOk result (λ failure. failure ≡ described_failure status) }
    {
        match status {
            FailureStatus::ExitCode(code) => Ok(FailureDescription::ExitCode { code }),
            FailureStatus::Abort(status) => Ok(FailureDescription::Abort {
                abort: AbortDescription::from_status(alloc, status)?,
            }),
        }
    }
}

impl ExecutionResultDescription {
    /// The same end of an attempt, with the name of its signal where one ended it. It fails only on
    /// allocation.
    pub fn from_result(alloc: Global, ended: ExecutionResult) -> Result<Self, AllocError>
        ensures { IfOk result (λ description. description ≡ result_description_of ended) }
    {
        match ended {
            ExecutionResult::Pass => Ok(ExecutionResultDescription::Pass),
            ExecutionResult::Leak { result } => Ok(ExecutionResultDescription::Leak { result }),
            ExecutionResult::Fail {
                failure_status,
                leaked,
            } => Ok(ExecutionResultDescription::Fail {
                failure: FailureDescription::from_status(alloc, failure_status)?,
                leaked,
            }),
            ExecutionResult::ExecFail => Ok(ExecutionResultDescription::ExecFail),
            ExecutionResult::Timeout { result } => {
                Ok(ExecutionResultDescription::Timeout { result })
            }
        }
    }
}

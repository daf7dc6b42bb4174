// The forms of how an attempt ended.
ghost use Rattle.std.specs.Prelude.{[]};
ghost use Rattle.nextest_json.specs.Calls.{Gives, IsBelow};
ghost use Rattle.nextest_json.specs.Seen.{data_of};
ghost use Rattle.nextest_run_events_json.specs.Forms as form_of;
ghost use Rattle.nextest_run_events_json.specs.Laws as law;
ghost use Rattle.nextest_run_events_json.specs.ReadBack as back;
ghost use Rattle.nextest_run_events_json.specs.Reading as read;

use crate::form::{JsonForm, RunEvents, unless_absent};
use nextest_json::{Fault, Form, JsonValue, PathStep, optional, required, word};
use nextest_run_events_results::{
    AbortDescription, ExecutionResultDescription, FailureDescription,
};
use serde_json::{Value, json};
use std::alloc::{AllocError, Global};

// What the word of a member tells isn't known.
fn unknown(alloc: Global, name: &'static str) -> Fault
    ensures { IsBelow (Fault.At []) name.now result }
{
    Fault::here(alloc).below(PathStep::Name(name))
}

// An abort by a signal.
fn signal_abort(alloc: Global, value: &JsonValue<'_, '_>) -> Result<AbortDescription, Fault>
    ensures { Gives result (read.signal_abort (data_of value.now)) }
{
    Ok(AbortDescription::UnixSignal {
        signal: required(alloc, value, "signal")?,
        name: optional(alloc, value, "name")?,
    })
}

// An abort by a status.
fn status_abort(alloc: Global, value: &JsonValue<'_, '_>) -> Result<AbortDescription, Fault>
    ensures { Gives result (read.status_abort (data_of value.now)) }
{
    Ok(AbortDescription::WindowsNtStatus {
        code: required(alloc, value, "code")?,
        message: optional(alloc, value, "message")?,
    })
}

impl Form<RunEvents> for AbortDescription {
    ghost reading = { read.abort };

    fn from_value(alloc: Global, value: &JsonValue<'_, '_>) -> Result<AbortDescription, Fault> {
        let Some(kind) = word(value, "kind") else {
            return Err(unknown(alloc, "kind"));
        };
        match kind {
            "unix-signal" => signal_abort(alloc, value),
            "windows-nt-status" => status_abort(alloc, value),
            "windows-job-object" => Ok(AbortDescription::WindowsJobObject),
            _ => Err(unknown(alloc, "kind")),
        }
    }
}

impl JsonForm for AbortDescription {
    ghost form = { form_of.abort };

    ghost fits = { law.FitsAbort };

    ghost read_back = { back.abort_back };

    fn to_json(&self, alloc: Global) -> Result<Value, AllocError> {
        match self {
            AbortDescription::UnixSignal { signal, name } => {
                let name = unless_absent(alloc, name)?;
                json!(in alloc; {"kind": "unix-signal", "name": name, "signal": *signal})
            }
            AbortDescription::WindowsNtStatus { code, message } => {
                let message = unless_absent(alloc, message)?;
                json!(in alloc; {"code": *code, "kind": "windows-nt-status", "message": message})
            }
            AbortDescription::WindowsJobObject => json!(in alloc; {"kind": "windows-job-object"}),
        }
    }
}

impl Form<RunEvents> for FailureDescription {
    ghost reading = { read.failure };

    fn from_value(alloc: Global, value: &JsonValue<'_, '_>) -> Result<FailureDescription, Fault> {
        let Some(kind) = word(value, "kind") else {
            return Err(unknown(alloc, "kind"));
        };
        match kind {
            "exit-code" => Ok(FailureDescription::ExitCode {
                code: required(alloc, value, "code")?,
            }),
            "abort" => Ok(FailureDescription::Abort {
                abort: required(alloc, value, "abort")?,
            }),
            _ => Err(unknown(alloc, "kind")),
        }
    }
}

impl JsonForm for FailureDescription {
    ghost form = { form_of.failure };

    ghost fits = { law.FitsFailure };

    ghost read_back = { back.failure_back };

    fn to_json(&self, alloc: Global) -> Result<Value, AllocError> {
        match self {
            FailureDescription::ExitCode { code } => {
                json!(in alloc; {"code": *code, "kind": "exit-code"})
            }
            FailureDescription::Abort { abort } => {
                let abort = abort.to_json(alloc)?;
                json!(in alloc; {"abort": abort, "kind": "abort"})
            }
        }
    }
}

// A failed result.
fn fail_result(
    alloc: Global,
    value: &JsonValue<'_, '_>,
) -> Result<ExecutionResultDescription, Fault>
    ensures { Gives result (read.fail_result (data_of value.now)) }
{
    Ok(ExecutionResultDescription::Fail {
        failure: required(alloc, value, "failure")?,
        leaked: required(alloc, value, "leaked")?,
    })
}

impl Form<RunEvents> for ExecutionResultDescription {
    ghost reading = { read.result };

    fn from_value(
        alloc: Global,
        value: &JsonValue<'_, '_>,
    ) -> Result<ExecutionResultDescription, Fault> {
        let Some(status) = word(value, "status") else {
            return Err(unknown(alloc, "status"));
        };
        match status {
            "pass" => Ok(ExecutionResultDescription::Pass),
            "leak" => Ok(ExecutionResultDescription::Leak {
                result: required(alloc, value, "result")?,
            }),
            "fail" => fail_result(alloc, value),
            "exec-fail" => Ok(ExecutionResultDescription::ExecFail),
            "timeout" => Ok(ExecutionResultDescription::Timeout {
                result: required(alloc, value, "result")?,
            }),
            _ => Err(unknown(alloc, "status")),
        }
    }
}

impl JsonForm for ExecutionResultDescription {
    ghost form = { form_of.result };

    ghost fits = { law.FitsResult };

    ghost read_back = { back.result_back };

    fn to_json(&self, alloc: Global) -> Result<Value, AllocError> {
        match self {
            ExecutionResultDescription::Pass => json!(in alloc; {"status": "pass"}),
            ExecutionResultDescription::Leak { result } => {
                let judged = result.to_json(alloc)?;
                json!(in alloc; {"result": judged, "status": "leak"})
            }
            ExecutionResultDescription::Fail { failure, leaked } => {
                let failure = failure.to_json(alloc)?;
                json!(in alloc; {"failure": failure, "leaked": *leaked, "status": "fail"})
            }
            ExecutionResultDescription::ExecFail => json!(in alloc; {"status": "exec-fail"}),
            ExecutionResultDescription::Timeout { result } => {
                let judged = result.to_json(alloc)?;
                json!(in alloc; {"result": judged, "status": "timeout"})
            }
        }
    }
}

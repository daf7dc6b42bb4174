// How a process ended, in words, what that is described as, and the JSON forms of that.
use crate::page::{Page, Whole};
use crate::parts::two;
use crate::{ok, show, some};
use nextest_run_events::{
    AbortDescription, AbortStatus, ExecutionResult, ExecutionResultDescription, ExitStatus,
    FailureDescription, FailureStatus, JsonForm, LeakTimeoutResult, SerializableError,
    SlowTimeoutResult, signal_name,
};
use nextest_text::i32_of_decimal;
use serde_json::Value;
use std::alloc::Global;
use std::fmt::Debug;

// `code NUMBER` or `signal NUMBER`.
fn exit_of(words: &str) -> Option<ExitStatus> {
    let (kind, number) = two(words, " ");
    let number = some!(i32_of_decimal(number));
    match kind {
        "code" => Some(ExitStatus::Code(number)),
        "signal" => Some(ExitStatus::Signal(number)),
        _ => None,
    }
}

// A failure, with `leaked` behind it or not.
fn failure_of(words: &str) -> Option<ExecutionResult> {
    let exit = words.strip_suffix(" leaked");
    let failure_status = FailureStatus::extract(some!(exit_of(exit.unwrap_or(words))));
    Some(ExecutionResult::Fail {
        failure_status,
        leaked: exit.is_some(),
    })
}

// The end of these words: `pass`, `leak` or `timeout` with how it is judged, `exec-fail`, or `code`
// or `signal` with its number and, where handles were left open too, `leaked`.
pub(crate) fn end_of(words: &str) -> Option<ExecutionResult> {
    match words {
        "pass" => Some(ExecutionResult::Pass),
        "leak pass" => Some(ExecutionResult::Leak {
            result: LeakTimeoutResult::Pass,
        }),
        "leak fail" => Some(ExecutionResult::Leak {
            result: LeakTimeoutResult::Fail,
        }),
        "exec-fail" => Some(ExecutionResult::ExecFail),
        "timeout pass" => Some(ExecutionResult::Timeout {
            result: SlowTimeoutResult::Pass,
        }),
        "timeout fail" => Some(ExecutionResult::Timeout {
            result: SlowTimeoutResult::Fail,
        }),
        _ => failure_of(words),
    }
}

// The description of an end in these words, or by a job object, which no process here ends by.
pub(crate) fn described_end(alloc: Global, words: &str) -> Option<ExecutionResultDescription> {
    if words == "job object" {
        return Some(ExecutionResultDescription::Fail {
            failure: FailureDescription::Abort {
                abort: AbortDescription::WindowsJobObject,
            },
            leaked: false,
        });
    }
    ExecutionResultDescription::from_result(alloc, some!(end_of(words))).ok()
}

// An end: the name of its kind, whether it is a success, and its description as JSON.
pub(crate) fn ends(page: &mut Page, input: &str) -> Option<()> {
    let ended = some!(end_of(input));
    show!(page; ended.as_static_str(), ", success ", ended.is_success(), ", ");
    written(page, &some!(described_end(page.alloc, input)))
}

// What is written of a value as JSON.
fn written<T: JsonForm>(page: &mut Page, form: &T) -> Option<()> {
    page.show(ok!(form.to_json(page.alloc)));
    Some(())
}

// An exit: the abort that it is, if it is one, and the failure that it is.
pub(crate) fn exits(page: &mut Page, input: &str) -> Option<()> {
    let exit = some!(exit_of(input));
    show!(page; Whole(AbortStatus::extract(exit)), ", ", Whole(FailureStatus::extract(exit)));
    Some(())
}

// The number of a signal: its name, if it has one.
pub(crate) fn signals(page: &mut Page, input: &str) -> Option<()> {
    page.debug(signal_name(some!(i32_of_decimal(input))));
    Some(())
}

// A kind of value and JSON: the value that is read of it, behind the JSON that it is written as; or
// why nothing is read.
pub(crate) fn json_forms(page: &mut Page, input: &str) -> Option<()> {
    let (kind, text) = two(input, " ");
    json_form(page, kind, &ok!(Value::from_str(page.alloc, text)))
}

fn json_form(page: &mut Page, kind: &str, value: &Value) -> Option<()> {
    match kind {
        "abort" => read_back::<AbortDescription>(page, value),
        "error" => read_back::<SerializableError>(page, value),
        "failure" => read_back::<FailureDescription>(page, value),
        "number" => read_back::<i32>(page, value),
        "result" => read_back::<ExecutionResultDescription>(page, value),
        _ => None,
    }
}

fn read_back<T: JsonForm + Clone + Debug>(page: &mut Page, value: &Value) -> Option<()> {
    match T::from_json(page.alloc, value) {
        Ok(form) => {
            some!(written(page, &form));
            page.show(" for ");
            page.debug_copy(&form);
        }
        Err(error) => page.show(error),
    }
    Some(())
}

// A kind of value and JSON: what the value that is read of it prints.
pub(crate) fn printed_forms(page: &mut Page, input: &str) -> Option<()> {
    let (kind, text) = two(input, " ");
    printed_as(page, kind, &ok!(Value::from_str(page.alloc, text)))
}

fn printed_as(page: &mut Page, kind: &str, value: &Value) -> Option<()> {
    match kind {
        "abort" => page.shown(AbortDescription::from_json(page.alloc, value)),
        "error" => page.shown(SerializableError::from_json(page.alloc, value)),
        "failure" => page.shown(FailureDescription::from_json(page.alloc, value)),
        _ => return None,
    }
    Some(())
}

// The lines of a test, of its attempts and of a script.
ghost use Rattle.std.specs.Prelude.{◌≡◌, ◌∷◌, ◌++◌, OnOk, decimal, string_bytes};
ghost use Rattle.test_runner_core_run_state.specs.Statuses.{script_record_in};
ghost use Rattle.test_runner_core_report_lines.specs.Texts.{end_by, failure_text, fate_of, fate_word, result_text, script_end, script_line, slow_word, test_line, tries_text, try_line, try_lines};
ghost use Rattle.test_runner_core_report_lines.specs.Writing.{Extends};

use crate::reported_test::ReportedTest;
use crate::writing::{push_feed, push_field, push_text};
use itoa::Buffer;
use nextest_config_elements_choices::{LeakTimeoutResult, SlowTimeoutResult};
use nextest_run_events_outputs::{LiveSpec, SetupScriptExecuteStatus};
use nextest_run_events_results::{
    AbortDescription, ExecutionResultDescription, FailureDescription,
};
use std::alloc::AllocError;
use test_runner_core_run_state::KeptRecord;

// Adds a line of this kind on the test.
pub(crate) fn push_test_line(
    text: &mut String,
    kind: &str,
    test: &ReportedTest<'_>,
) -> Result<(), AllocError>
    ensures ok { OnOk result
        (string_bytes text.new ≡ string_bytes text.old ++ test_line kind.now test.now) }
    ensures grows { Extends (string_bytes text.old) (string_bytes text.new) }
{
    push_test(text, kind, test)?;
    push_fate(text, test)?;
    push_tries(text, test)?;
    push_feed(text)
}

// Adds a tab, and what became of the test.
fn push_fate(text: &mut String, test: &ReportedTest<'_>) -> Result<(), AllocError>
    ensures ok { OnOk result
        (string_bytes text.new ≡ string_bytes text.old ++ 9 ∷ fate_word (fate_of test.now.state)) }
    ensures grows { Extends (string_bytes text.old) (string_bytes text.new) }
{
    push_field(text, test.fate().word())
}

// Adds the kind of a line on the test, and which test it is.
fn push_test(text: &mut String, kind: &str, test: &ReportedTest<'_>) -> Result<(), AllocError>
    ensures ok { OnOk result (string_bytes text.new ≡ string_bytes text.old
        ++ (kind.now ++ 9 ∷ (test.now.name.binary_id ++ 9 ∷ test.now.name.test_name))) }
    ensures grows { Extends (string_bytes text.old) (string_bytes text.new) }
{
    push_text(text, kind)?;
    push_field(text, test.binary_id())?;
    push_field(text, test.test_name())
}

// Adds a tab, and how many attempts of the test ended, of how many tries.
fn push_tries(text: &mut String, test: &ReportedTest<'_>) -> Result<(), AllocError>
    ensures ok { OnOk result
        (string_bytes text.new ≡ string_bytes text.old ++ 9 ∷ tries_text test.now.state) }
    ensures grows { Extends (string_bytes text.old) (string_bytes text.new) }
{
    push_field(text, Buffer::new().format(test.ended()))?;
    push_text(text, "/")?;
    push_text(text, Buffer::new().format(test.tries()))
}

// Adds a failure.
fn push_failure(text: &mut String, told: &FailureDescription) -> Result<(), AllocError>
    ensures ok { OnOk result
        (string_bytes text.new ≡ string_bytes text.old ++ failure_text told.now) }
    ensures grows { Extends (string_bytes text.old) (string_bytes text.new) }
{
    match told {
        FailureDescription::ExitCode { code } => {
            push_text(text, "fail:")?;
            push_text(text, Buffer::new().format(*code))
        }
        FailureDescription::Abort { abort } => match abort {
            AbortDescription::UnixSignal { signal, .. } => {
                push_text(text, "abort:")?;
                push_text(text, Buffer::new().format(*signal))
            }
            AbortDescription::WindowsNtStatus { code, .. } => {
                push_text(text, "abort:nt:")?;
                push_text(text, Buffer::new().format(*code))
            }
            AbortDescription::WindowsJobObject => push_text(text, "abort:job-object"),
        },
    }
}

// Adds a result.
fn push_result(text: &mut String, told: &ExecutionResultDescription) -> Result<(), AllocError>
    ensures ok { OnOk result
        (string_bytes text.new ≡ string_bytes text.old ++ result_text told.now) }
    ensures grows { Extends (string_bytes text.old) (string_bytes text.new) }
{
    match told {
        ExecutionResultDescription::Pass => push_text(text, "pass"),
        ExecutionResultDescription::Leak { result } => match result {
            LeakTimeoutResult::Pass => push_text(text, "leak:pass"),
            LeakTimeoutResult::Fail => push_text(text, "leak:fail"),
        },
        ExecutionResultDescription::Fail { failure, leaked } => {
            push_failure(text, failure)?;
            push_text(text, if *leaked { ":leaked" } else { "" })
        }
        ExecutionResultDescription::ExecFail => push_text(text, "exec-fail"),
        ExecutionResultDescription::Timeout { result } => match result {
            SlowTimeoutResult::Pass => push_text(text, "timeout:pass"),
            SlowTimeoutResult::Fail => push_text(text, "timeout:fail"),
        },
    }
}

// The word for whether an attempt was slow.
fn slow_word(slow: bool) -> &'static str
    ensures { result.now ≡ slow_word slow }
{
    if slow { "slow" } else { "-" }
}

// Adds the line of an attempt with this number, which ended so.
fn push_try(text: &mut String, number: usize, ended: &KeptRecord) -> Result<(), AllocError>
    ensures ok { OnOk result
        (string_bytes text.new ≡ string_bytes text.old ++ try_line number ended.now) }
    ensures grows { Extends (string_bytes text.old) (string_bytes text.new) }
{
    push_text(text, "try")?;
    push_field(text, Buffer::new().format(number))?;
    let (slow, nanos) = (ended.slow(), u128::from(ended.nanos()));
    match ended.whole() {
        Some(whole) => push_end(text, &whole.result, slow, nanos)?,
        None => push_end(text, &ExecutionResultDescription::Pass, slow, nanos)?,
    }
    push_feed(text)
}

// Adds a tab, and how an attempt or a script ended: with this result, slow or not, after so many
// nanoseconds.
fn push_end(
    text: &mut String,
    told: &ExecutionResultDescription,
    slow: bool,
    nanos: u128,
) -> Result<(), AllocError>
    ensures ok { OnOk result (string_bytes text.new
        ≡ string_bytes text.old ++ 9 ∷ end_by told.now slow nanos) }
    ensures grows { Extends (string_bytes text.old) (string_bytes text.new) }
{
    push_text(text, "\t")?;
    push_result(text, told)?;
    push_field(text, slow_word(slow))?;
    push_field(text, Buffer::new().format(nanos))
}

// Adds a tab, and how a script ended, if it did.
fn push_script_end(
    text: &mut String,
    status: Option<&SetupScriptExecuteStatus<LiveSpec>>,
) -> Result<(), AllocError>
    ensures ok { OnOk result (string_bytes text.new
        ≡ string_bytes text.old ++ 9 ∷ script_end (script_record_in status.entry)) }
    ensures grows { Extends (string_bytes text.old) (string_bytes text.new) }
{
    match status {
        Some(status) => {
            let nanos = status.time_taken.as_nanos();
            push_end(text, &status.result, status.is_slow, nanos)
        }
        None => push_field(text, "not-run"),
    }
}

// Adds the line of the script with this id.
pub(crate) fn push_script_line(
    text: &mut String,
    id: &str,
    status: Option<&SetupScriptExecuteStatus<LiveSpec>>,
) -> Result<(), AllocError>
    ensures ok { OnOk result (string_bytes text.new
        ≡ string_bytes text.old ++ script_line id.now (script_record_in status.entry)) }
    ensures grows { Extends (string_bytes text.old) (string_bytes text.new) }
{
    push_text(text, "script")?;
    push_field(text, id)?;
    push_script_end(text, status)?;
    push_feed(text)
}

// Adds the lines of all attempts.
pub(crate) fn push_attempts(text: &mut String, records: &[KeptRecord]) -> Result<(), AllocError>
    ensures ok { OnOk result
        (string_bytes text.new ≡ string_bytes text.old ++ try_lines 1 records.now) }
    ensures grows { Extends (string_bytes text.old) (string_bytes text.new) }
{
    let mut number = 0;
    for ended in records {
        number += 1;
        push_try(text, number, ended)?;
    }
    Ok(())
}

// What a report says of a test, as it finishes and in the final text, and of a script.
ghost use Rattle.std.specs.Prelude.{◌≡◌, ◌||◌, true, [], ◌++◌, OnOk, OnErr, Some, codes, if◌then◌else◌, string_bytes};
ghost use Rattle.nextest_run_events_visibility.specs.declared.visibility.OutputStoreFinal.TheVariants.{Yes};
ghost use Rattle.test_runner_core_run_state.specs.Statuses.{script_record_in};
ghost use Rattle.test_runner_core_run_model.specs.State.{last_record};
ghost use Rattle.test_runner_core_report_lines.specs.Due.{due_of};
ghost use Rattle.test_runner_core_report_lines.specs.Report.{IsDone, IsDoneBy, IsShown, IsShownBy, IsShownOutputs, kept_of};
ghost use Rattle.test_runner_core_report_lines.specs.Texts.{script_text, test_line, try_lines};
ghost use Rattle.test_runner_core_report_lines.specs.Writing.{Adds, Extends};

use crate::lines::{push_attempts, push_script_line, push_test_line};
use crate::outputs::{push_outputs, push_script_outputs};
use crate::reported_test::ReportedTest;
use crate::shows::Shows;
use crate::writing::all_or_nothing;
use nextest_run_events_outputs::{LiveSpec, SetupScriptExecuteStatus};
use nextest_run_events_visibility::{OutputOnTestFinished, OutputStoreFinal};
use std::alloc::AllocError;

/// Adds what is written as a test finishes: its line, if the line or its outputs are due at once,
/// and then its outputs, if they are. It adds nothing where nothing is due, or where the test isn't
/// finished. It fails only on allocation, and then the text stays as it was.
pub fn push_done(
    text: &mut String,
    shows: &Shows,
    test: &ReportedTest<'_>,
) -> Result<(), AllocError>
    ensures ok { OnOk result
        (Adds (IsDone shows.now test.now) (string_bytes text.old) (string_bytes text.new)) }
    ensures err { OnErr result (string_bytes text.new ≡ string_bytes text.old) }
{
    let length = text.len();
    let added = push_if_due(text, shows, test);
    all_or_nothing(text, length, added)
}

/// Adds the part of a test in the final text: its line, a line for each of its ended attempts and
/// then its outputs, if they are to stand there. Of a finished test of which nothing is kept it
/// adds nothing. It fails only on allocation, and then the text stays as it was.
pub fn push_shown(
    text: &mut String,
    shows: &Shows,
    test: &ReportedTest<'_>,
) -> Result<(), AllocError>
    ensures ok { OnOk result
        (Adds (IsShown shows.now test.now) (string_bytes text.old) (string_bytes text.new)) }
    ensures err { OnErr result (string_bytes text.new ≡ string_bytes text.old) }
{
    let length = text.len();
    let added = push_if_kept(text, shows, test);
    all_or_nothing(text, length, added)
}

/// Adds what the final text says of the script with this id: its line, and its outputs where it
/// ended and is no success. `None` is the status of one that didn't end. It fails only on
/// allocation, and then the text stays as it was.
pub fn push_script(
    text: &mut String,
    id: &str,
    status: Option<&SetupScriptExecuteStatus<LiveSpec>>,
) -> Result<(), AllocError>
    ensures ok { OnOk result (string_bytes text.new
        ≡ string_bytes text.old ++ script_text id.now (script_record_in status.entry)) }
    ensures err { OnErr result (string_bytes text.new ≡ string_bytes text.old) }
{
    let length = text.len();
    let added = push_script_lines(text, id, status);
    all_or_nothing(text, length, added)
}

// Adds the line of a script, and the outputs that the final text has of it.
fn push_script_lines(
    text: &mut String,
    id: &str,
    status: Option<&SetupScriptExecuteStatus<LiveSpec>>,
) -> Result<(), AllocError>
    ensures ok { OnOk result (string_bytes text.new
        ≡ string_bytes text.old ++ script_text id.now (script_record_in status.entry)) }
    ensures grows { Extends (string_bytes text.old) (string_bytes text.new) }
{
    push_script_line(text, id, status)?;
    push_script_outputs(text, status)
}

// Adds what is due of a test as it finishes, if anything is.
fn push_if_due(text: &mut String, shows: &Shows, test: &ReportedTest<'_>) -> Result<(), AllocError>
    ensures ok { OnOk result
        (Adds (IsDone shows.now test.now) (string_bytes text.old) (string_bytes text.new)) }
    ensures grows { Extends (string_bytes text.old) (string_bytes text.new) }
{
    match test.due(shows) {
        Some(due) => push_due(text, &due, test),
        None => Ok(()),
    }
}

// Adds the part of a test in the final text, if it has one.
fn push_if_kept(text: &mut String, shows: &Shows, test: &ReportedTest<'_>) -> Result<(), AllocError>
    ensures ok { OnOk result
        (Adds (IsShown shows.now test.now) (string_bytes text.old) (string_bytes text.new)) }
    ensures grows { Extends (string_bytes text.old) (string_bytes text.new) }
{
    match kept_of(test.due(shows)) {
        OutputStoreFinal::Yes { display_output } => push_kept(text, display_output, test),
        OutputStoreFinal::No => Ok(()),
    }
}

// What of a test the final text has.
fn kept_of(due: Option<OutputOnTestFinished>) -> OutputStoreFinal
    ensures { result ≡ kept_of due }
{
    match due {
        Some(due) => due.store_final,
        None => OutputStoreFinal::Yes {
            display_output: false,
        },
    }
}

// Adds what is due of a test as it finishes.
fn push_due(
    text: &mut String,
    due: &OutputOnTestFinished,
    test: &ReportedTest<'_>,
) -> Result<(), AllocError>
    ensures ok { OnOk result
        (Adds (IsDoneBy (Some due.now) test.now) (string_bytes text.old) (string_bytes text.new)) }
    ensures grows { Extends (string_bytes text.old) (string_bytes text.new) }
{
    push_done_line(text, due, test)?;
    push_shown_outputs(text, due.show_immediate, test)
}

// Adds the line of a test that finishes, if the line or its outputs are due.
fn push_done_line(
    text: &mut String,
    due: &OutputOnTestFinished,
    test: &ReportedTest<'_>,
) -> Result<(), AllocError>
    ensures ok { OnOk result (string_bytes text.new
        ≡ string_bytes text.old ++ (if due.now.write_status_line || due.now.show_immediate
        then test_line (codes "done") test.now else [])) }
    ensures grows { Extends (string_bytes text.old) (string_bytes text.new) }
{
    if due.write_status_line || due.show_immediate {
        push_test_line(text, "done", test)
    } else {
        Ok(())
    }
}

// Adds the lines of a test and of its attempts, and its outputs, if they are shown.
fn push_kept(text: &mut String, is_shown: bool, test: &ReportedTest<'_>) -> Result<(), AllocError>
    ensures ok { OnOk result
        (Adds (IsShownBy (Yes is_shown) test.now) (string_bytes text.old) (string_bytes text.new)) }
    ensures grows { Extends (string_bytes text.old) (string_bytes text.new) }
{
    push_test_line(text, "test", test)?;
    push_each_attempt(text, test)?;
    push_shown_outputs(text, is_shown, test)
}

// Adds a line for each ended attempt of a test.
fn push_each_attempt(text: &mut String, test: &ReportedTest<'_>) -> Result<(), AllocError>
    ensures ok { OnOk result
        (string_bytes text.new ≡ string_bytes text.old ++ try_lines 1 test.now.state.records) }
    ensures grows { Extends (string_bytes text.old) (string_bytes text.new) }
{
    push_attempts(text, test.records())
}

// Adds the outputs of a test's last attempt, if they are shown.
fn push_shown_outputs(
    text: &mut String,
    is_shown: bool,
    test: &ReportedTest<'_>,
) -> Result<(), AllocError>
    ensures ok { OnOk result (Adds (IsShownOutputs is_shown (last_record test.now.state.records))
        (string_bytes text.old) (string_bytes text.new)) }
    ensures grows { Extends (string_bytes text.old) (string_bytes text.new) }
{
    if !is_shown {
        return Ok(());
    }
    push_last_outputs(text, test)
}

// Adds the outputs of a test's last attempt.
fn push_last_outputs(text: &mut String, test: &ReportedTest<'_>) -> Result<(), AllocError>
    ensures ok { OnOk result (Adds (IsShownOutputs true (last_record test.now.state.records))
        (string_bytes text.old) (string_bytes text.new)) }
    ensures grows { Extends (string_bytes text.old) (string_bytes text.new) }
{
    match test.records().last() {
        Some(last) => push_outputs(text, last),
        None => Ok(()),
    }
}

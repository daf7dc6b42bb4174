// Reporting parts of a report. What is reported waits in a text, which is written in few calls.
ghost use Rattle.std.specs.Prelude.{◌≡◌, ◌^◌, ◌<◌, [], ◌∷◌, OnOk, string_bytes};
ghost use Rattle.test_runner_core_run_state.specs.Statuses.{script_record_in};
ghost use Rattle.test_runner_core_report_lines.specs.Texts.{script_text};
ghost use Rattle.test_runner_core_reporter.specs.Parts.{Done, Said, Shown};
ghost use Rattle.test_runner_core_reporter.specs.Writes.{WritesParts, CountsWriteFailures};

use crate::fault::ReportFault;
use nextest_run_events_outputs::{LiveSpec, SetupScriptExecuteStatus};
use test_runner_core_report_lines::{ReportedTest, Shows, push_done, push_script, push_shown};
use test_runner_core_streams::{ReportWriter, write_all};

// What waits is written once it has so many bytes.
const LONG: usize = 65_536;

/// Writes what waits. Where that fails, the writer took a prefix of it.
pub fn write_waiting<W: ReportWriter>(text: &mut String, report: &mut W) -> Result<(), ReportFault>
    requires writes_fit { W.failures report.old < 2 ^ 63 }
    ensures writes { WritesParts result [] (W.taken report.old) (string_bytes text.old)
        (W.taken report.new) (string_bytes text.new) }
    ensures empty { OnOk result (string_bytes text.new ≡ []) }
    ensures failures { CountsWriteFailures result (W.failures report.old) (W.failures report.new)
        (W.last_failed report.new) }
{
    match write_all(report, text.as_bytes()) {
        Ok(()) => {
            text.clear();
            Ok(())
        }
        Err(cause) => Err(ReportFault::Write(cause)),
    }
}

// Writes what waits, where it is long.
fn write_if_long<W: ReportWriter>(text: &mut String, report: &mut W) -> Result<(), ReportFault>
    requires writes_fit { W.failures report.old < 2 ^ 63 }
    ensures writes { WritesParts result [] (W.taken report.old) (string_bytes text.old)
        (W.taken report.new) (string_bytes text.new) }
    ensures failures { CountsWriteFailures result (W.failures report.old) (W.failures report.new)
        (W.last_failed report.new) }
{
    if text.len() < LONG {
        return Ok(());
    }
    write_waiting(text, report)
}

/// Reports words.
pub fn report_words<W: ReportWriter>(
    text: &mut String,
    report: &mut W,
    words: &str,
) -> Result<(), ReportFault>
    requires writes_fit { W.failures report.old < 2 ^ 63 }
    ensures writes { WritesParts result (Said words.now ∷ []) (W.taken report.old)
        (string_bytes text.old) (W.taken report.new) (string_bytes text.new) }
    ensures failures { CountsWriteFailures result (W.failures report.old) (W.failures report.new)
        (W.last_failed report.new) }
{
    text.push_str(words)?;
    write_if_long(text, report)
}

/// Reports what is written as a test finishes.
pub fn report_done<W: ReportWriter>(
    text: &mut String,
    report: &mut W,
    shows: &Shows,
    test: &ReportedTest<'_>,
) -> Result<(), ReportFault>
    requires writes_fit { W.failures report.old < 2 ^ 63 }
    ensures writes { WritesParts result (Done shows.now test.now ∷ []) (W.taken report.old)
        (string_bytes text.old) (W.taken report.new) (string_bytes text.new) }
    ensures failures { CountsWriteFailures result (W.failures report.old) (W.failures report.new)
        (W.last_failed report.new) }
{
    push_done(text, shows, test)?;
    write_if_long(text, report)
}

/// Reports a test's part in the final text.
pub fn report_shown<W: ReportWriter>(
    text: &mut String,
    report: &mut W,
    shows: &Shows,
    test: &ReportedTest<'_>,
) -> Result<(), ReportFault>
    requires writes_fit { W.failures report.old < 2 ^ 63 }
    ensures writes { WritesParts result (Shown shows.now test.now ∷ []) (W.taken report.old)
        (string_bytes text.old) (W.taken report.new) (string_bytes text.new) }
    ensures failures { CountsWriteFailures result (W.failures report.old) (W.failures report.new)
        (W.last_failed report.new) }
{
    push_shown(text, shows, test)?;
    write_if_long(text, report)
}

/// Reports what the final text says of the script with this id. `None` is the status of one that
/// didn't end.
pub fn report_script<W: ReportWriter>(
    text: &mut String,
    report: &mut W,
    id: &str,
    status: Option<&SetupScriptExecuteStatus<LiveSpec>>,
) -> Result<(), ReportFault>
    requires writes_fit { W.failures report.old < 2 ^ 63 }
    ensures writes { WritesParts result
        (Said (script_text id.now (script_record_in status.entry)) ∷ [])
        (W.taken report.old) (string_bytes text.old) (W.taken report.new) (string_bytes text.new) }
    ensures failures { CountsWriteFailures result
        (W.failures report.old) (W.failures report.new) (W.last_failed report.new) }
{
    push_script(text, id, status)?;
    write_if_long(text, report)
}

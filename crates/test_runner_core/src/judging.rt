// How a run goes by the lines of a log, and what is reported of it.
ghost use Rattle.std.specs.Prelude.{◌≡◌, ◌⊎◌, ◌+◌, ◌^◌, ◌<◌, ◌≤◌, [], IfOk, string_bytes, true};
ghost use Rattle.test_runner_core_log_reader.specs.Limits.{log_reads};
ghost use Rattle.test_runner_core_log_reader.specs.Cursor.{Unmoved, tells_next};
ghost use Rattle.test_runner_core_reporter.specs.Writes as reporting;
ghost use Rattle.test_runner_core_session.specs.Session.{session_of};
ghost use Rattle.test_runner_core.specs.Faults.{CountsReadFailures, CountsWriteFailures};
ghost use Rattle.test_runner_core.specs.Inside.{HandsNext, JudgesLines, ReadsNext};
ghost use Rattle.test_runner_core.specs.Near.{LinesNear, LooksNear};

use crate::judge_fault::JudgeFault;
use crate::judging_line::judge_line;
use crate::refused_line::{RefusedLine, refusal_for, refused_at};
use std::alloc::Global;
use test_runner_core_log_reader::{LogLines, Next};
use test_runner_core_reporter::{ReportFault, report_opening, write_waiting};
use test_runner_core_session::RecordSession;
use test_runner_core_streams::{LogReader, ReportWriter};

// Takes the run of a plan from its beginning by the lines of a log, as `lines` cuts them from the
// reader, up to the first that is refused, which changes nothing and is answered; `None` where all
// are accepted. The plan's warnings are reported first, and then what the steps finish; all that is
// reported is written before the reader is asked for more.
pub(crate) fn judge_lines<R: LogReader, W: ReportWriter>(
    alloc: Global,
    session: &mut RecordSession<'_>,
    lines: &mut LogLines,
    log: &mut R,
    text: &mut String,
    report: &mut W,
) -> Result<Option<RefusedLine>, JudgeFault>
    requires calls_fit { R.calls log.old + 2 ^ 32 ≤ 2 ^ 63 }
    requires failures_fit { R.failures log.old < 2 ^ 62 }
    requires writes_fit { W.failures report.old < 2 ^ 62 }
    requires begins { session.old ≡ session_of session.old.plan }
    requires empty { string_bytes text.old ≡ [] }
    ensures plan { IfOk result (λ _. session.new.plan ≡ session.old.plan) }
    ensures judged { JudgesLines result session.old.plan session.new.run lines.old (R.left log.old)
        (R.left log.new) (W.taken report.old) (W.taken report.new) (string_bytes text.new) }
    ensures near { LinesNear session.old.plan lines.old (R.left log.old) (R.left log.new)
        (W.taken report.old) (W.taken report.new) }
    ensures reads { R.calls log.new ≤ R.calls log.old + log_reads }
    ensures read_failures { CountsReadFailures result (R.failures log.old) (R.failures log.new)
        (R.last_failed log.new) }
    ensures write_failures { CountsWriteFailures result (W.failures report.old)
        (W.failures report.new) (W.last_failed report.new) }
{
    report_opening(alloc, text, report, session.plan())?;
    let mut number = 1;
    loop {
        match next_line(lines, log, text, report)? {
            Next::Line => {}
            Next::Refused(fault) => return Ok(Some(refused_at(number, refusal_for(fault)))),
            Next::End => return Ok(None),
        }
        if let Some(refusal) = judge_line(alloc, session, lines.line(), text, report)? {
            return Ok(Some(refused_at(number, refusal)));
        }
        number += 1;
    }
}

// Finds the next line. Where that needs a read, what was reported is written before.
fn next_line<R: LogReader, W: ReportWriter>(
    lines: &mut LogLines,
    log: &mut R,
    text: &mut String,
    report: &mut W,
) -> Result<Next, JudgeFault>
    requires calls_fit { R.calls log.old + 2 ^ 31 ≤ 2 ^ 63 }
    requires failures_fit { R.failures log.old < 2 ^ 63 }
    requires writes_fit { W.failures report.old < 2 ^ 63 }
    ensures items { HandsNext result lines.old (R.left log.old) lines.new (R.left log.new)
        (W.taken report.old) (string_bytes text.old) (W.taken report.new) (string_bytes text.new) }
    ensures near { LooksNear result lines.old (R.left log.old) lines.new (R.left log.new)
        (W.taken report.old) (string_bytes text.old) (W.taken report.new) (string_bytes text.new) }
    ensures reads { ReadsNext result lines.old (R.calls log.old) lines.new (R.calls log.new) }
    ensures read_failures { CountsReadFailures result (R.failures log.old) (R.failures log.new)
        (R.last_failed log.new) }
    ensures write_failures { CountsWriteFailures result (W.failures report.old)
        (W.failures report.new) (W.last_failed report.new) }
{
    write_before_read(lines, text, report)?;
    Ok(lines.next(log)?)
}

// Writes what was reported, where the next line needs a read.
fn write_before_read<W: ReportWriter>(
    lines: &mut LogLines,
    text: &mut String,
    report: &mut W,
) -> Result<(), ReportFault>
    requires writes_fit { W.failures report.old < 2 ^ 63 }
    ensures unmoved { Unmoved lines.old lines.new }
    ensures writes { reporting.WritesParts result [] (W.taken report.old) (string_bytes text.old)
        (W.taken report.new) (string_bytes text.new) }
    ensures ready { IfOk result
        (λ _. (tells_next lines.new ≡ true) ⊎ (string_bytes text.new ≡ [])) }
    ensures failures { reporting.CountsWriteFailures result (W.failures report.old)
        (W.failures report.new) (W.last_failed report.new) }
{
    if lines.is_waiting() {
        return Ok(());
    }
    write_waiting(text, report)
}

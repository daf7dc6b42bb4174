// The whole report: of a planned run, and of what is refused before one.
ghost use Rattle.std.specs.Prelude.{◌≡◌, ◌+◌, ◌^◌, ◌<◌, ◌≤◌, [], ◌∷◌, IfOk, string_bytes};
ghost use Rattle.test_runner_core_log_reader.specs.Limits.{log_reads};
ghost use Rattle.test_runner_core_planning.specs.Texts.{status_of};
ghost use Rattle.test_runner_core_reporter.specs.Parts.{Said};
ghost use Rattle.test_runner_core_reporter.specs.Writes as reporting;
ghost use Rattle.test_runner_core.specs.Faults.{CountsReadFailures, CountsWriteFailures};
ghost use Rattle.test_runner_core.specs.Inside.{IsBegun, IsGot, IsJudged};
ghost use Rattle.test_runner_core.specs.Near.{LinesNear};
ghost use Rattle.test_runner_core.specs.Report.{IsStatus, Reports, ending, exit_status, refused_inputs, refused_plan, refused_line};

use crate::judge_fault::JudgeFault;
use crate::judging::judge_lines;
use crate::refused_line::RefusedLine;
use std::alloc::Global;
use test_runner_core_inputs::InputsRefusal;
use test_runner_core_log_reader::LogLines;
use test_runner_core_plan::Plan;
use test_runner_core_planning::PlanFault;
use test_runner_core_reporter::{ReportFault, report_final, report_words, write_waiting};
use test_runner_core_session::RecordSession;
use test_runner_core_streams::{LogReader, ReportWriter, write_all};

// The exit status where a line, or a stream's first line, is refused.
const REFUSED: u8 = 96;

// Judges the run of a plan by the lines of a log, and writes its report.
pub(crate) fn judge_plan<R: LogReader, W: ReportWriter>(
    alloc: Global,
    plan: &Plan,
    lines: &mut LogLines,
    log: &mut R,
    report: &mut W,
) -> Result<u8, JudgeFault>
    requires calls_fit { R.calls log.old + 2 ^ 32 ≤ 2 ^ 63 }
    requires failures_fit { R.failures log.old < 2 ^ 62 }
    requires writes_fit { W.failures report.old < 2 ^ 62 }
    ensures reports { Reports result (IsJudged plan.now lines.old (R.left log.old))
        (IsGot plan.now lines.old (R.left log.old) (R.left log.new))
        (IsBegun plan.now lines.old (R.left log.old)) (W.taken report.old) (W.taken report.new) }
    ensures near { LinesNear plan.now lines.old (R.left log.old) (R.left log.new)
        (W.taken report.old) (W.taken report.new) }
    ensures status { IfOk result IsStatus }
    ensures reads { R.calls log.new ≤ R.calls log.old + log_reads }
    ensures read_failures { CountsReadFailures result (R.failures log.old) (R.failures log.new)
        (R.last_failed log.new) }
    ensures write_failures { CountsWriteFailures result (W.failures report.old)
        (W.failures report.new) (W.last_failed report.new) }
{
    let mut session = RecordSession::unprepared(alloc, plan)?;
    let mut text = String::new(alloc);
    let found = judge_lines(alloc, &mut session, lines, log, &mut text, report)?;
    Ok(end_report(alloc, &mut text, report, &session, found)?)
}

// Reports how the report of a run ends, and writes all that waits.
fn end_report<W: ReportWriter>(
    alloc: Global,
    text: &mut String,
    report: &mut W,
    session: &RecordSession<'_>,
    found: Option<RefusedLine>,
) -> Result<u8, ReportFault>
    requires writes_fit { W.failures report.old < 2 ^ 62 }
    ensures writes { reporting.WritesParts result (ending session.now.plan session.now.run found)
        (W.taken report.old) (string_bytes text.old) (W.taken report.new) (string_bytes text.new) }
    ensures empty { IfOk result (λ _. string_bytes text.new ≡ []) }
    ensures code { IfOk result (λ code. code ≡ exit_status session.now.run found) }
    ensures failures { reporting.CountsWriteFailures result (W.failures report.old)
        (W.failures report.new) (W.last_failed report.new) }
{
    let code = report_ending(alloc, text, report, session, found)?;
    write_waiting(text, report)?;
    Ok(code)
}

// Reports how the report of a run ends.
fn report_ending<W: ReportWriter>(
    alloc: Global,
    text: &mut String,
    report: &mut W,
    session: &RecordSession<'_>,
    found: Option<RefusedLine>,
) -> Result<u8, ReportFault>
    requires writes_fit { W.failures report.old < 2 ^ 62 }
    ensures writes { reporting.WritesParts result (ending session.now.plan session.now.run found)
        (W.taken report.old) (string_bytes text.old) (W.taken report.new) (string_bytes text.new) }
    ensures code { IfOk result (λ code. code ≡ exit_status session.now.run found) }
    ensures failures { reporting.CountsWriteFailures result (W.failures report.old)
        (W.failures report.new) (W.last_failed report.new) }
{
    match found {
        Some(found) => {
            report_refused_line(alloc, text, report, found)?;
            Ok(REFUSED)
        }
        None => {
            report_final(alloc, text, report, session)?;
            Ok(session.status())
        }
    }
}

// Reports which line is refused.
fn report_refused_line<W: ReportWriter>(
    alloc: Global,
    text: &mut String,
    report: &mut W,
    found: RefusedLine,
) -> Result<(), ReportFault>
    requires writes_fit { W.failures report.old < 2 ^ 62 }
    ensures writes { reporting.WritesParts result (refused_line found) (W.taken report.old)
        (string_bytes text.old) (W.taken report.new) (string_bytes text.new) }
    ensures failures { reporting.CountsWriteFailures result (W.failures report.old)
        (W.failures report.new) (W.last_failed report.new) }
{
    let words = format!(in alloc; "refused\tline\t{}\t{}\n", found.line, found.refusal)?;
    report_words(text, report, words.as_str())
}

// Writes the report of inputs that have no plan.
pub(crate) fn refuse_plan<W: ReportWriter>(
    alloc: Global,
    refusal: &PlanFault,
    report: &mut W,
) -> Result<u8, ReportFault>
    requires writes_fit { W.failures report.old < 2 ^ 62 }
    ensures writes { reporting.WritesParts result (refused_plan refusal.now) (W.taken report.old) []
        (W.taken report.new) [] }
    ensures code { IfOk result (λ code. code ≡ status_of refusal.now) }
    ensures failures { reporting.CountsWriteFailures result (W.failures report.old)
        (W.failures report.new) (W.last_failed report.new) }
{
    let words = format!(in alloc; "refused\t{}\n", refusal.name())?;
    write_words(report, words.as_str())?;
    Ok(refusal.status())
}

// Writes the report of a first line that is no inputs.
pub(crate) fn refuse_inputs<W: ReportWriter>(
    alloc: Global,
    refusal: &InputsRefusal,
    report: &mut W,
) -> Result<u8, JudgeFault>
    requires writes_fit { W.failures report.old < 2 ^ 62 }
    ensures reports { Reports result
        (λ parts code. (parts ≡ refused_inputs refusal.now) × (code ≡ 96)) (λ _. ⊥)
        (λ parts. parts ≡ refused_inputs refusal.now) (W.taken report.old) (W.taken report.new) }
    ensures status { IfOk result IsStatus }
    ensures failures { CountsWriteFailures result (W.failures report.old) (W.failures report.new)
        (W.last_failed report.new) }
{
    Ok(write_refused_inputs(alloc, refusal, report)?)
}

// The same, with the fault of reporting.
fn write_refused_inputs<W: ReportWriter>(
    alloc: Global,
    refusal: &InputsRefusal,
    report: &mut W,
) -> Result<u8, ReportFault>
    requires writes_fit { W.failures report.old < 2 ^ 62 }
    ensures writes { reporting.WritesParts result (refused_inputs refusal.now)
        (W.taken report.old) [] (W.taken report.new) [] }
    ensures code { IfOk result (λ code. code ≡ 96) }
    ensures failures { reporting.CountsWriteFailures result (W.failures report.old)
        (W.failures report.new) (W.last_failed report.new) }
{
    let words = match refusal {
        InputsRefusal::Field(path) => format!(in alloc; "refused\tField\t{path}\n")?,
        InputsRefusal::Syntax => format!(in alloc; "refused\tSyntax\n")?,
    };
    write_words(report, words.as_str())?;
    Ok(REFUSED)
}

// Writes words.
fn write_words<W: ReportWriter>(report: &mut W, words: &str) -> Result<(), ReportFault>
    requires writes_fit { W.failures report.old < 2 ^ 62 }
    ensures writes { reporting.WritesParts result (Said words.now ∷ []) (W.taken report.old) []
        (W.taken report.new) [] }
    ensures failures { reporting.CountsWriteFailures result (W.failures report.old)
        (W.failures report.new) (W.last_failed report.new) }
{
    match write_all(report, words.as_bytes()) {
        Ok(()) => Ok(()),
        Err(cause) => Err(ReportFault::Write(cause)),
    }
}

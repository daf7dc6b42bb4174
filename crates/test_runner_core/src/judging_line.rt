// What one line of a log does to a run.
ghost use Rattle.std.specs.Prelude.{◌≡◌, ◌^◌, ◌<◌, IfOk, MatchResult, OnErr, string_bytes};
ghost use Rattle.test_runner_core_run_model.specs.Finishing.{KeepsReasons};
ghost use Rattle.test_runner_core_reporter.specs.Writes.{CountsWriteFailures};
ghost use Rattle.test_runner_core_line_syntax.specs.Lent.{line_meant, record_meant};
ghost use Rattle.test_runner_core_line_syntax.specs.declared.log_line.LogLine.TheVariants as lines;
ghost use Rattle.test_runner_core.specs.declared.judging_line.LineStep.TheVariants as it;
ghost use Rattle.test_runner_core.specs.Inside.{Forgets, JudgesLine, Steps, StepsLine};

use crate::kept_record::record_to_keep;
use crate::refused_line::LineRefusal;
use nextest_run_events_results::TestInstanceId;
use std::alloc::{AllocError, Global};
use test_runner_core_line_syntax::{LentLine, LentRecord, SpellingError};
use test_runner_core_reporter::{ReportFault, is_settled, report_step};
use test_runner_core_run_model::{Finished, StepRefusal};
use test_runner_core_run_state::{KeptRecord, StartFault};
use test_runner_core_session::RecordSession;
use test_runner_core_streams::ReportWriter;

// What became of a line's event.
#[derive(Clone, Copy)]
pub(crate) enum LineStep {
    // Its step is taken, and finished this.
    Taken(Finished),
    // It is refused.
    Refused(StepRefusal),
}

// Judges the bytes of one line, and reports what its step finishes: why they are refused, if they
// are.
pub(crate) fn judge_line<W: ReportWriter>(
    alloc: Global,
    session: &mut RecordSession<'_>,
    bytes: &[u8],
    text: &mut String,
    report: &mut W,
) -> Result<Option<LineRefusal>, ReportFault>
    requires writes_fit { W.failures report.old < 2 ^ 63 }
    requires reached { KeepsReasons session.old.run }
    ensures judged { JudgesLine result session.old bytes.now session.new (W.taken report.old)
        (string_bytes text.old) (W.taken report.new) (string_bytes text.new) }
    ensures failures { CountsWriteFailures result (W.failures report.old) (W.failures report.new)
        (W.last_failed report.new) }
{
    match LentLine::parse(bytes) {
        Ok(None) => Ok(None),
        Ok(Some(line)) => report_line(alloc, session, line, text, report),
        Err(SpellingError::NotUtf8) => Ok(Some(LineRefusal::NotUtf8)),
        Err(SpellingError::BadLine) => Ok(Some(LineRefusal::BadLine)),
    }
}

// Takes the step of a line's event, and reports what it finishes: why it is refused, if it is.
fn report_line<W: ReportWriter>(
    alloc: Global,
    session: &mut RecordSession<'_>,
    line: LentLine<'_>,
    text: &mut String,
    report: &mut W,
) -> Result<Option<LineRefusal>, ReportFault>
    requires writes_fit { W.failures report.old < 2 ^ 63 }
    requires reached { KeepsReasons session.old.run }
    ensures judged { StepsLine result session.old (line_meant line.entry) session.new
        (W.taken report.old) (string_bytes text.old) (W.taken report.new) (string_bytes text.new) }
    ensures failures { CountsWriteFailures result (W.failures report.old) (W.failures report.new)
        (W.last_failed report.new) }
{
    match take_step(alloc, session, line)? {
        LineStep::Refused(refusal) => Ok(Some(LineRefusal::Step(refusal))),
        LineStep::Taken(finished) => {
            report_step(text, report, session, finished)?;
            forget_settled(session, finished);
            Ok(None)
        }
    }
}

// Forgets the outputs of the test that a step finished, where no report needs them any more.
fn forget_settled(session: &mut RecordSession<'_>, finished: Finished)
    ensures plan { session.new.plan ≡ session.old.plan }
    ensures run { Forgets session.old.plan session.old.run session.new.run }
{
    if let Some(place) = finished.ended {
        if has_outputs(session, place) && is_settled(session, place) {
            session.forget_outputs(place);
        }
    }
}

// Whether outputs of attempts of the test at a place may be kept. It affects only time.
fn has_outputs(session: &RecordSession<'_>, place: usize) -> bool {
    let Some(kept) = session.kept_at(place) else {
        return false;
    };
    match kept.attempts.as_slice() {
        [] => false,
        [only] => only.whole().is_some(),
        _ => true,
    }
}

// Takes the step of a line's event.
fn take_step(
    alloc: Global,
    session: &mut RecordSession<'_>,
    line: LentLine<'_>,
) -> Result<LineStep, AllocError>
    ensures taken { IfOk result (λ it. Steps it session.old (line_meant line.entry) session.new) }
    ensures kept { OnErr result (session.new ≡ session.old) }
{
    match line {
        LentLine::Script { id, record } => end_script(alloc, session, id, record),
        LentLine::Start { binary, name } => start(session, binary, name),
        LentLine::End {
            binary,
            name,
            record,
        } => end(alloc, session, binary, name, record),
        LentLine::Stop { reason } => Ok(step_of(session.stop(reason))),
    }
}

// What an answer of the session comes to.
fn step_of(answer: Result<Finished, StepRefusal>) -> LineStep
    ensures { MatchResult answer (λ finished. result ≡ it.Taken finished)
        (λ refusal. result ≡ it.Refused refusal) }
{
    match answer {
        Ok(finished) => LineStep::Taken(finished),
        Err(refusal) => LineStep::Refused(refusal),
    }
}

// A script ended.
fn end_script(
    alloc: Global,
    session: &mut RecordSession<'_>,
    id: &str,
    record: LentRecord<'_>,
) -> Result<LineStep, AllocError>
    ensures taken { IfOk result (λ it.
        Steps it session.old (lines.Script id.now (record_meant «record».entry)) session.new) }
    ensures kept { OnErr result (session.new ≡ session.old) }
{
    let record = record.own(alloc)?;
    Ok(step_of(session.script_finished(id, record)))
}

// An attempt starts, which finishes no test.
fn start(session: &mut RecordSession<'_>, binary: &str, name: &str) -> Result<LineStep, AllocError>
    ensures taken { IfOk result
        (λ it. Steps it session.old (lines.Start binary.now name.now) session.new) }
    ensures kept { OnErr result (session.new ≡ session.old) }
{
    let test = TestInstanceId {
        binary_id: binary,
        test_name: name,
    };
    // A log in which no test starts needs neither the tests' states nor their index.
    session.prepare()?;
    match session.start(test) {
        Ok(()) => Ok(LineStep::Taken(Finished {
            ended: None,
            stops: false,
        })),
        Err(StartFault::Refused(refusal)) => Ok(LineStep::Refused(refusal)),
        Err(StartFault::OutOfMemory) => Err(AllocError),
    }
}

// An attempt ended. Of its record that is kept which a report may show.
fn end(
    alloc: Global,
    session: &mut RecordSession<'_>,
    binary: &str,
    name: &str,
    record: LentRecord<'_>,
) -> Result<LineStep, AllocError>
    ensures taken { IfOk result (λ it. Steps it session.old
        (lines.End binary.now name.now (record_meant «record».entry)) session.new) }
    ensures kept { OnErr result (session.new ≡ session.old) }
{
    let test = TestInstanceId {
        binary_id: binary,
        test_name: name,
    };
    let record = record_to_keep(alloc, session, test, record)?;
    let ending = KeptRecord::new(alloc, record)?;
    Ok(step_of(session.attempt_finished(test, ending)))
}

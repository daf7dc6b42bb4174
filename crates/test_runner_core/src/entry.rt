// The two ways to judge a run: of inputs and a log, and of one stream that has both.
ghost use Rattle.std.specs.Prelude.{◌≡◌, ℕ, ◌+◌, ◌^◌, ◌<◌, ◌≤◌, List, IfOk, IfSome, Err, length};
ghost use Rattle.test_runner_core_log_reader.specs.Limits.{first_line_reads, log_reads};
ghost use Rattle.test_runner_core_streams.specs.Left.{OfBytes};
ghost use Rattle.test_runner_core_inputs.specs.Reading.{read_inputs};
ghost use Rattle.test_runner_core_log_reader.specs.Feeds.{before_feed};
ghost use Rattle.test_runner_core_log_reader.specs.Items.{items};
ghost use Rattle.test_runner_core.specs.Faults.{CountsReadFailures, CountsWriteFailures, lacks_memory};
ghost use Rattle.test_runner_core.specs.Headline.{Headline, StreamHeadline};
ghost use Rattle.test_runner_core.specs.Near.{InputsNear, LogNear, StreamNear};
ghost use Rattle.test_runner_core.specs.Outcome.{HasNoPlan, ReportsStream, table_of};
ghost use Rattle.test_runner_core.specs.Inside.{IsGotOf};
ghost use Rattle.test_runner_core.specs.Report.{Begun, Composed, HasSoFar, IsStatus, OfLeft, Reports, ReportsLog};
ghost use Rattle.test_runner_core_log_reader.specs.Cursor.{items_ahead};
ghost use Rattle.test_runner_core_planning.specs.Plan.{AsksWith, Builds, Plans};
ghost use Rattle.test_runner_core_planning.specs.declared.plan_fault.PlanFault.{PlanFault};
ghost use Rattle.test_runner_core_workspace.specs.declared.record.Binary.{Binary};

use crate::judge_fault::JudgeFault;
use crate::whole_report::{judge_plan, refuse_inputs, refuse_plan};
use std::alloc::Global;
use test_runner_core_inputs::{Inputs, InputsError, InputsRefusal};
use test_runner_core_log_reader::LogLines;
use test_runner_core_plan::Plan;
use test_runner_core_planning::{BuildPlan, PlanError};
use test_runner_core_streams::{LogReader, ReportWriter};
use test_runner_core_workspace::{Lister, TableLister};

/// Judges the run of inputs by a log, writes its report and answers its exit status. The lister is
/// asked once for each listed binary, in the workspace's order, up to the first whose answer is
/// refused, and for none where the inputs are refused before. Where the inputs have no plan,
/// nothing of the log is read, and the report is the one line of the refusal. Whenever the log is
/// asked for more, all is written that the whole lines so far come to: that is said, in `reports`,
/// of a read that fails. No read asks for more than `READ_LIMIT` bytes, which a `LogReader` may
/// rely on; and where the reader's bytes are known, fewer than that many are taken past the line
/// that decides, and past each line up to which the report was not written whole (`near`).
///
/// Where no line is refused, the log agrees with an assignment and has no stop, and the run is
/// complete, the status is that assignment's due status, and where no script of the assignment
/// stops the run and its failing tests weigh less than the limit the report ends with the final text
/// of plan and assignment, in whatever order the tests ran; where the log is cut, or has a stop, the
/// status is that or a more severe one.
///
/// The log is that of the bytes that the reader has left. Where these aren't known, as those of
/// standard input aren't, all this holds of some log.
///
/// # Errors
///
/// `Read` after a failed read: the report has what the whole lines come to that were got. `Write`
/// after a failed write and `Memory` where there is no memory: the report has a prefix of what it
/// would have been. A failed read or write is never tried again. Where there is no memory the
/// lister was asked for a prefix of the listed binaries.
pub fn judge<L: Lister, R: LogReader, W: ReportWriter>(
    alloc: Global,
    inputs: &Inputs,
    lister: &mut L,
    log: &mut R,
    report: &mut W,
) -> Result<u8, JudgeFault>
    requires calls_fit { R.calls log.old < 2 ^ 62 }
    requires failures_fit { R.failures log.old < 2 ^ 62 }
    requires writes_fit { W.failures report.old < 2 ^ 62 }
    ensures reports { ReportsLog (L.answer lister.old) inputs.now result (R.left log.old)
        (R.left log.new) (W.taken report.old) (W.taken report.new) }
    ensures status { IfOk result IsStatus }
    ensures headline { IfOk result (λ code. OfLeft (R.left log.old) (λ bytes.
        Headline (L.answer lister.old) inputs.now (items 0 bytes) code
        (W.taken report.old) (W.taken report.new))) }
    ensures stays { (other : Binary) → L.answer lister.new other ≡ L.answer lister.old other }
    ensures asks { AsksWith (L.answer lister.old) inputs.now (lacks_memory result)
        (L.asked lister.old) (L.asked lister.new) }
    ensures unread { (refusal : PlanFault) → Plans (L.answer lister.old) inputs.now (Err refusal)
        → R.calls log.new ≡ R.calls log.old }
    ensures reads { R.calls log.new ≤ R.calls log.old + log_reads }
    ensures near { LogNear (L.answer lister.old) inputs.now (R.left log.old) (R.left log.new)
        (W.taken report.old) (W.taken report.new) }
    ensures read_failures { CountsReadFailures result (R.failures log.old) (R.failures log.new)
        (R.last_failed log.new) }
    ensures write_failures { CountsWriteFailures result (W.failures report.old)
        (W.failures report.new) (W.last_failed report.new) }
{
    match Plan::build(alloc, inputs, lister) {
        Ok(plan) => judge_plan(alloc, &plan, &mut LogLines::new(alloc), log, report),
        Err(PlanError::Refused(refusal)) => Ok(refuse_plan(alloc, &refusal, report)?),
        Err(PlanError::OutOfMemory) => Err(JudgeFault::Memory),
    }
}

/// Judges the run of one stream: its bytes up to the first line feed, or to its end, are the JSON
/// inputs, with the tests of each binary, and the rest is the log. A first line of more than
/// 16,777,216 bytes is no inputs. Where the first line is no inputs or they have no plan, the
/// reader is called for that line alone: each call but the last brings some of its bytes
/// (`unread`). No read asks for more than `READ_LIMIT` bytes, and fewer than that many are taken
/// past the line that decides, and past each up to which the report was not written whole (`near`).
/// The stream is that of the bytes that the reader has left; where these aren't known, all this
/// holds of some stream.
///
/// # Errors
///
/// `Read` after a failed read: the report has what the whole lines come to that were got, which is
/// nothing before the first line feed. `Write` after a failed write and `Memory` where there is no
/// memory: the report has a prefix of what it would have been. A failed read or write is never
/// tried again.
pub fn judge_stream<R: LogReader, W: ReportWriter>(
    alloc: Global,
    input: &mut R,
    report: &mut W,
) -> Result<u8, JudgeFault>
    requires calls_fit { R.calls input.old < 2 ^ 62 }
    requires failures_fit { R.failures input.old < 2 ^ 62 }
    requires writes_fit { W.failures report.old < 2 ^ 62 }
    ensures reports { ReportsStream result (R.left input.old) (R.left input.new)
        (W.taken report.old) (W.taken report.new) }
    ensures status { IfOk result IsStatus }
    ensures headline { IfOk result (λ code. OfLeft (R.left input.old) (λ bytes.
        StreamHeadline bytes code (W.taken report.old) (W.taken report.new))) }
    ensures unread { IfSome (R.left input.old) (λ bytes. HasNoPlan (read_inputs (before_feed bytes))
        → R.calls input.new ≤ R.calls input.old + length (before_feed bytes) + 1) }
    ensures reads { R.calls input.new ≤ R.calls input.old + first_line_reads + log_reads }
    ensures near { StreamNear (R.left input.old) (R.left input.new) (W.taken report.old)
        (W.taken report.new) }
    ensures read_failures { CountsReadFailures result (R.failures input.old) (R.failures input.new)
        (R.last_failed input.new) }
    ensures write_failures { CountsWriteFailures result (W.failures report.old)
        (W.failures report.new) (W.last_failed report.new) }
{
    let Some(mut lines) = LogLines::behind_first_line(alloc, input)? else {
        return refuse_inputs(alloc, &InputsRefusal::Syntax, report);
    };
    match Inputs::from_json(alloc, lines.line()) {
        Ok(inputs) => judge_by_table(alloc, inputs, &mut lines, input, report),
        Err(InputsError::Refused(refusal)) => refuse_inputs(alloc, &refusal, report),
        Err(InputsError::OutOfMemory) => Err(JudgeFault::Memory),
    }
}

// Judges the run of inputs by the lines of a log, where each binary answers by the inputs' own
// table.
fn judge_by_table<R: LogReader, W: ReportWriter>(
    alloc: Global,
    inputs: Inputs,
    lines: &mut LogLines,
    log: &mut R,
    report: &mut W,
) -> Result<u8, JudgeFault>
    requires calls_fit { R.calls log.old + 2 ^ 32 ≤ 2 ^ 63 }
    requires failures_fit { R.failures log.old < 2 ^ 62 }
    requires writes_fit { W.failures report.old < 2 ^ 62 }
    ensures reports { Reports result
        (λ parts code. OfBytes (R.left log.old) (λ bytes.
        Composed (table_of inputs) inputs (items_ahead lines.old bytes) parts code))
        (λ parts. (front : List (List ℕ))
        × IsGotOf lines.old (R.left log.old) (R.left log.new) front
        × HasSoFar (table_of inputs) inputs front parts)
        (λ parts. OfBytes (R.left log.old) (λ bytes.
        Begun (table_of inputs) inputs (items_ahead lines.old bytes) parts))
        (W.taken report.old) (W.taken report.new) }
    ensures status { IfOk result IsStatus }
    ensures unread { (refusal : PlanFault) → Plans (table_of inputs) inputs (Err refusal)
        → R.calls log.new ≡ R.calls log.old }
    ensures reads { R.calls log.new ≤ R.calls log.old + log_reads }
    ensures near { InputsNear inputs lines.old (R.left log.old) (R.left log.new)
        (W.taken report.old) (W.taken report.new) }
    ensures read_failures { CountsReadFailures result (R.failures log.old) (R.failures log.new)
        (R.last_failed log.new) }
    ensures write_failures { CountsWriteFailures result (W.failures report.old)
        (W.failures report.new) (W.last_failed report.new) }
{
    match plan_by_table(alloc, inputs) {
        Ok(plan) => judge_plan(alloc, &plan, lines, log, report),
        Err(PlanError::Refused(refusal)) => Ok(refuse_plan(alloc, &refusal, report)?),
        Err(PlanError::OutOfMemory) => Err(JudgeFault::Memory),
    }
}

// The plan of inputs, where each binary answers by their own table. The inputs' room is given back.
fn plan_by_table(alloc: Global, inputs: Inputs) -> Result<Plan, PlanError>
    ensures { Builds (table_of inputs) inputs result }
{
    let mut lister = TableLister::new(alloc, &inputs.workspace)?;
    Plan::build(alloc, &inputs, &mut lister)
}

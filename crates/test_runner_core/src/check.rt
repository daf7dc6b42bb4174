// The first line of a log that is refused whatever the plan.
ghost use Rattle.std.specs.Prelude.{◌+◌, ◌^◌, ◌<◌, ◌≤◌, IfOk};
ghost use Rattle.test_runner_core_log_reader.specs.Limits.{log_reads};
ghost use Rattle.test_runner_core_log_reader.specs.Items.{items};
ghost use Rattle.test_runner_core_log_reader.specs.Calls.{TellsFailure};
ghost use Rattle.test_runner_core.specs.Check.{FirstRefused, IsReading};
ghost use Rattle.test_runner_core.specs.Report.{OfLeft};

use crate::refused_line::{LineRefusal, RefusedLine, refusal_for, refused_at};
use std::alloc::Global;
use test_runner_core_line_syntax::{LentLine, SpellingError};
use test_runner_core_log_reader::{LogFault, LogLines, Next};
use test_runner_core_streams::LogReader;

/// The first line of a log that is refused whatever the plan; `None` where every line is empty or
/// spells an event. The log is that of the bytes that the reader has left; where these aren't
/// known, it is some log.
///
/// # Errors
///
/// `Read` where the reader fails, `Memory` where there is no memory for a line; what was read until
/// then is lost.
pub fn first_refused<R: LogReader>(
    alloc: Global,
    reader: &mut R,
) -> Result<Option<RefusedLine>, LogFault>
    requires calls_fit { R.calls reader.old < 2 ^ 62 }
    requires failures_fit { R.failures reader.old < 2 ^ 62 }
    ensures found { IfOk result
        (λ found. OfLeft (R.left reader.old) (λ log. FirstRefused 1 (items 0 log) found)) }
    ensures reads { R.calls reader.new ≤ R.calls reader.old + log_reads }
    ensures failures { TellsFailure result (R.failures reader.old) (R.failures reader.new)
        (R.last_failed reader.new) }
{
    let mut lines = LogLines::new(alloc);
    let mut number = 1;
    loop {
        match lines.next(reader)? {
            Next::Line => {}
            Next::Refused(fault) => return Ok(Some(refused_at(number, refusal_for(fault)))),
            Next::End => return Ok(None),
        }
        if let Some(refusal) = refusal_in(lines.line()) {
            return Ok(Some(refused_at(number, refusal)));
        }
        number += 1;
    }
}

// Why the bytes of a line are refused, if they are.
fn refusal_in(bytes: &[u8]) -> Option<LineRefusal>
    ensures { IsReading bytes.now result }
{
    match LentLine::parse(bytes) {
        Ok(_) => None,
        Err(SpellingError::NotUtf8) => Some(LineRefusal::NotUtf8),
        Err(SpellingError::BadLine) => Some(LineRefusal::BadLine),
    }
}

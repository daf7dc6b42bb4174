// How judging ends.
ghost use Rattle.std.specs.Prelude.{◌^◌, ◌<◌};

use std::alloc::Global;
use std::io::ErrorKind;
use test_runner_core::{Inputs, JudgeFault, Lister, LogReader, ReportWriter, judge, judge_stream};

/// How a judging ended.
#[derive(Clone, Copy, PartialEq)]
pub enum End {
    /// With this exit status.
    Status(u8),
    /// A read failed so.
    Read(ErrorKind),
    /// A write failed so.
    Write(ErrorKind),
    /// For want of memory.
    Memory,
}

// How a judging ended that answers this.
fn end_of(answer: Result<u8, JudgeFault>) -> End {
    match answer {
        Ok(status) => End::Status(status),
        Err(JudgeFault::Read(cause)) => End::Read(cause.kind()),
        Err(JudgeFault::Write(cause)) => End::Write(cause.kind()),
        Err(JudgeFault::Memory) => End::Memory,
    }
}

/// Judges the run of inputs by a log.
pub fn end_of_log<L: Lister, R: LogReader, W: ReportWriter>(
    alloc: Global,
    inputs: &Inputs,
    lister: &mut L,
    log: &mut R,
    report: &mut W,
) -> End
    requires calls_fit { R.calls log.old < 2 ^ 62 }
    requires failures_fit { R.failures log.old < 2 ^ 62 }
    requires writes_fit { W.failures report.old < 2 ^ 62 }
{
    end_of(judge(alloc, inputs, lister, log, report))
}

/// Judges the run of a stream.
pub fn end_of_stream<R: LogReader, W: ReportWriter>(
    alloc: Global,
    input: &mut R,
    report: &mut W,
) -> End
    requires calls_fit { R.calls input.old < 2 ^ 62 }
    requires failures_fit { R.failures input.old < 2 ^ 62 }
    requires writes_fit { W.failures report.old < 2 ^ 62 }
{
    end_of(judge_stream(alloc, input, report))
}

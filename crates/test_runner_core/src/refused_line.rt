// Why a line is refused.
ghost use Rattle.std.specs.Prelude.{◌≡◌};
ghost use Rattle.test_runner_core.specs.Judging.{line_refusal_of};
ghost use Rattle.test_runner_core.specs.Texts.{text_of};

use std::fmt;
use test_runner_core_log_reader::LineFault;
use test_runner_core_run_model::StepRefusal;

/// Why a line of a log is refused, in the order in which the reasons are looked for.
#[derive(Clone, Copy, Debug, PartialEq, Eq, Hash)]
pub enum LineRefusal {
    /// The line has more bytes than a line may.
    LineTooLong,
    /// The log has more bytes than a log may, and the first of them is in the line.
    LogTooLong,
    /// The log ends within the line.
    NoLineEnd,
    /// The line isn't UTF-8.
    NotUtf8,
    /// The line isn't empty and spells no event.
    BadLine,
    /// Its event can't happen in the state in which it comes.
    Step(StepRefusal),
}

impl fmt::Display for LineRefusal {
    ghost use Rattle.std.specs.Prelude.{Some};
    ghost use Rattle.test_runner_core.specs.Texts.{text_of};

    ghost output = { λ it. Some (text_of it) };

    fn fmt<W: fmt::Write>(&self, f: &mut fmt::Formatter<W>) -> fmt::Result {
        match self {
            LineRefusal::LineTooLong => f.write_str("LineTooLong"),
            LineRefusal::LogTooLong => f.write_str("LogTooLong"),
            LineRefusal::NoLineEnd => f.write_str("NoLineEnd"),
            LineRefusal::NotUtf8 => f.write_str("NotUtf8"),
            LineRefusal::BadLine => f.write_str("BadLine"),
            LineRefusal::Step(refusal) => f.write_str(step_name(*refusal)),
        }
    }
}

// The name of a step's refusal.
fn step_name(refusal: StepRefusal) -> &'static str
    ensures { result.now ≡ text_of (LineRefusal.Step refusal) }
{
    match refusal {
        StepRefusal::UnknownScript => "UnknownScript",
        StepRefusal::UnknownTest => "UnknownTest",
        StepRefusal::Stopped => "Stopped",
        StepRefusal::OutOfOrder => "OutOfOrder",
        StepRefusal::ScriptsPending => "ScriptsPending",
        StepRefusal::Running => "Running",
        StepRefusal::Finished => "Finished",
        StepRefusal::NotRunning => "NotRunning",
        StepRefusal::InnerReason => "InnerReason",
    }
}

/// A line of a log that is refused.
#[derive(Clone, Copy, Debug, PartialEq, Eq, Hash)]
pub struct RefusedLine {
    /// The number of the line, from 1; empty lines count.
    pub line: u64,
    /// Why it is refused.
    pub refusal: LineRefusal,
}

pub(crate) fn refused_at(line: u64, refusal: LineRefusal) -> RefusedLine
    ensures { result ≡ record { line = line; refusal = refusal } }
{
    RefusedLine { line, refusal }
}

// The refusal of a line that has no end, or where a limit is passed.
pub(crate) fn refusal_for(fault: LineFault) -> LineRefusal
    ensures { result ≡ line_refusal_of fault }
{
    match fault {
        LineFault::LineTooLong => LineRefusal::LineTooLong,
        LineFault::LogTooLong => LineRefusal::LogTooLong,
        LineFault::NoLineEnd => LineRefusal::NoLineEnd,
    }
}

// A line of a log, made by its types.
ghost use Rattle.std.specs.Prelude.{◌≡◌};
ghost use Rattle.test_runner_core.specs.CancelReason.TheVariants as why;
ghost use Rattle.test_runner_core.specs.LogLine.TheVariants as lines;

use test_runner_core::{CancelReason, LogLine};

/// The line of a run that a user interrupts.
pub fn interrupted() -> LogLine
    ensures { result ≡ lines.Stop why.Interrupt }
{
    LogLine::Stop {
        reason: CancelReason::Interrupt,
    }
}

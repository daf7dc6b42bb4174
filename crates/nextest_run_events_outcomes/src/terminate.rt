// How and why a runner ends a unit that still runs.

use std::fmt;
use std::time::Duration;

/// Why a runner ends a unit.
#[derive(Clone, Copy, Debug)]
pub enum UnitTerminateReason {
    /// The unit took too long.
    Timeout,
    /// The runner received a signal to end.
    Signal,
    /// The runner was interrupted.
    Interrupt,
}

impl fmt::Display for UnitTerminateReason {
    ghost use Rattle.std.specs.Prelude.{Some};
    ghost use Rattle.nextest_run_events_outcomes.specs.Texts.{reason_name};

    ghost output = { λ reason. Some (reason_name reason) };

    fn fmt<W: fmt::Write>(&self, f: &mut fmt::Formatter<W>) -> fmt::Result {
        f.write_str(match self {
            UnitTerminateReason::Timeout => "timeout",
            UnitTerminateReason::Signal => "signal",
            UnitTerminateReason::Interrupt => "interrupt",
        })
    }
}

/// A signal by which a runner ends a unit.
#[derive(Clone, Copy, Debug, PartialEq, Eq)]
pub enum UnitTerminateSignal {
    /// An interrupt, as from the keyboard.
    Interrupt,
    /// The request to end.
    Term,
    /// The terminal was closed.
    Hangup,
    /// The request to quit.
    Quit,
    /// The end that no process can refuse.
    Kill,
}

impl fmt::Display for UnitTerminateSignal {
    ghost use Rattle.std.specs.Prelude.{Some};
    ghost use Rattle.nextest_run_events_outcomes.specs.Texts.{sent_name};

    ghost output = { λ signal. Some (sent_name signal) };

    fn fmt<W: fmt::Write>(&self, f: &mut fmt::Formatter<W>) -> fmt::Result {
        f.write_str(match self {
            UnitTerminateSignal::Interrupt => "SIGINT",
            UnitTerminateSignal::Term => "SIGTERM",
            UnitTerminateSignal::Hangup => "SIGHUP",
            UnitTerminateSignal::Quit => "SIGQUIT",
            UnitTerminateSignal::Kill => "SIGKILL",
        })
    }
}

/// How a runner ends a unit.
#[derive(Clone, Copy, Debug)]
pub enum UnitTerminateMethod {
    /// By this signal.
    Signal(UnitTerminateSignal),
}

/// A unit that its runner is ending.
#[derive(Clone, Debug, Drop)]
pub struct UnitTerminatingState {
    /// The id of its process.
    pub pid: u32,
    /// How long it has run.
    pub time_taken: Duration,
    /// Why it is ended.
    pub reason: UnitTerminateReason,
    /// How it is ended.
    pub method: UnitTerminateMethod,
    /// How long its end has been waited for.
    pub waiting_duration: Duration,
    /// How long its end is still waited for before it is killed.
    pub remaining: Duration,
}

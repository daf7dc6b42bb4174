// How an attempt of a test, or a setup script, ended.
ghost use Rattle.std.specs.Prelude.{◌≡◌};
ghost use Rattle.nextest_run_events_results.specs.Result.{is_success};
ghost use Rattle.nextest_run_events_results.specs.Signals.{is_termination_failure};
ghost use Rattle.nextest_run_events_results.specs.Texts.{kind_name};

use crate::signals::SIGTERM;
use nextest_config_elements_choices::{LeakTimeoutResult, SlowTimeoutResult};
use nextest_text::Text;
use std::fmt;

/// How a process was ended that did not end by itself, whatever the platform.
#[derive(Clone, Debug, PartialEq, Eq)]
pub enum AbortDescription {
    /// By a signal of Unix.
    UnixSignal {
        /// The signal's number.
        signal: i32,
        /// Its name without `SIG`, where it has a known one.
        name: Option<Text>,
    },
    /// By a status of Windows NT.
    WindowsNtStatus {
        /// The status.
        code: i32,
        /// What it means, where that is known.
        message: Option<Text>,
    },
    /// By a job object of Windows.
    WindowsJobObject,
}

// One call drops it, whoever holds it.
impl Drop for AbortDescription {
    fn drop(self) {
        match self {
            Self::UnixSignal { signal: _, name: _ } => {}
            Self::WindowsNtStatus {
                code: _,
                message: _,
            } => {}
            Self::WindowsJobObject => {}
        }
    }
}

/// Why an attempt failed.
#[derive(Clone, Debug, PartialEq, Eq)]
pub enum FailureDescription {
    /// It ended with a code other than 0.
    ExitCode {
        /// The code.
        code: i32,
    },
    /// It was ended.
    Abort {
        /// How.
        abort: AbortDescription,
    },
}

// One call drops it, whoever holds it.
impl Drop for FailureDescription {
    fn drop(self) {
        match self {
            Self::ExitCode { code: _ } => {}
            Self::Abort { abort: _ } => {}
        }
    }
}

/// How an attempt of a test, or a setup script, ended, whatever the platform.
#[derive(Clone, Debug, PartialEq, Eq)]
pub enum ExecutionResultDescription {
    /// It passed.
    Pass,
    /// It passed and left handles open.
    Leak {
        /// How that is judged.
        result: LeakTimeoutResult,
    },
    /// It failed.
    Fail {
        /// Why.
        failure: FailureDescription,
        /// Whether it left handles open too.
        leaked: bool,
    },
    /// It could not be started, or not be watched to its end.
    ExecFail,
    /// It was ended since it took too long.
    Timeout {
        /// How that is judged.
        result: SlowTimeoutResult,
    },
}

// One call drops it, whoever holds it.
impl Drop for ExecutionResultDescription {
    fn drop(self) {
        match self {
            Self::Pass => {}
            Self::Leak { result: _ } => {}
            Self::Fail {
                failure: _,
                leaked: _,
            } => {}
            Self::ExecFail => {}
            Self::Timeout { result: _ } => {}
        }
    }
}

impl ExecutionResultDescription {
    /// Whether it is a success: a pass, or a leak or timeout that is judged as a pass.
    pub fn is_success(&self) -> bool
        ensures { result ≡ is_success self.now }
    {
        match self {
            ExecutionResultDescription::Pass => true,
            ExecutionResultDescription::Leak { result } => *result == LeakTimeoutResult::Pass,
            ExecutionResultDescription::Timeout { result } => *result == SlowTimeoutResult::Pass,
            ExecutionResultDescription::Fail { .. } => false,
            ExecutionResultDescription::ExecFail => false,
        }
    }

    /// The name of its kind.
    pub fn as_static_str(&self) -> &'static str
        ensures { result.now ≡ kind_name self.now }
    {
        match self {
            ExecutionResultDescription::Pass => "pass",
            ExecutionResultDescription::Leak { .. } => "leak",
            ExecutionResultDescription::Fail { .. } => "fail",
            ExecutionResultDescription::ExecFail => "exec-fail",
            ExecutionResultDescription::Timeout { .. } => "timeout",
        }
    }

    /// Whether it is a failure by an end from outside: by the signal `SIGTERM`, or by a job object.
    pub fn is_termination_failure(&self) -> bool
        ensures { result ≡ is_termination_failure self.now }
    {
        let ExecutionResultDescription::Fail { failure, .. } = self else {
            return false;
        };
        let FailureDescription::Abort { abort } = failure else {
            return false;
        };
        match abort {
            AbortDescription::UnixSignal { signal, .. } => *signal == SIGTERM,
            AbortDescription::WindowsNtStatus { .. } => false,
            AbortDescription::WindowsJobObject => true,
        }
    }
}

// The digits of a status, as it is printed.
#[derive(Clone, Copy)]
struct StatusDigits(i32);

impl fmt::Display for StatusDigits {
    ghost use Rattle.std.specs.Prelude.{Some};
    ghost use Rattle.nextest_run_events_results.specs.Texts.{status_digits};

    ghost output = { λ it. Some (status_digits it.0) };

    fn fmt<W: fmt::Write>(&self, f: &mut fmt::Formatter<W>) -> fmt::Result {
        let code = self.0;
        write!(f, "{code:08x}")
    }
}

// What is printed of a signal behind its number.
#[derive(Clone, Copy)]
struct SignalSuffix<'a>(&'a Option<Text>);

impl fmt::Display for SignalSuffix<'_> {
    ghost use Rattle.std.specs.Prelude.{Some};
    ghost use Rattle.nextest_run_events_results.specs.Texts.{signal_suffix};

    ghost output = { λ it. Some (signal_suffix it.0.now) };

    fn fmt<W: fmt::Write>(&self, f: &mut fmt::Formatter<W>) -> fmt::Result {
        match self.0 {
            Some(name) => write!(f, " (SIG{name})"),
            None => Ok(()),
        }
    }
}

// What is printed of a status behind its code.
#[derive(Clone, Copy)]
struct StatusSuffix<'a>(&'a Option<Text>);

impl fmt::Display for StatusSuffix<'_> {
    ghost use Rattle.std.specs.Prelude.{Some};
    ghost use Rattle.nextest_run_events_results.specs.Texts.{status_suffix};

    ghost output = { λ it. Some (status_suffix it.0.now) };

    fn fmt<W: fmt::Write>(&self, f: &mut fmt::Formatter<W>) -> fmt::Result {
        match self.0 {
            Some(message) => write!(f, ": {message}"),
            None => Ok(()),
        }
    }
}

impl fmt::Display for AbortDescription {
    ghost use Rattle.std.specs.Prelude.{Some};
    ghost use Rattle.nextest_run_events_results.specs.Texts.{text_of_abort};

    ghost output = { λ it. Some (text_of_abort it) };

    fn fmt<W: fmt::Write>(&self, f: &mut fmt::Formatter<W>) -> fmt::Result {
        match self {
            AbortDescription::UnixSignal { signal, name } => {
                write!(f, "aborted with signal {signal}{}", SignalSuffix(name))
            }
            AbortDescription::WindowsNtStatus { code, message } => write!(
                f,
                "aborted with code 0x{}{}",
                StatusDigits(*code),
                StatusSuffix(message)
            ),
            AbortDescription::WindowsJobObject => f.write_str("terminated via job object"),
        }
    }
}

impl fmt::Display for FailureDescription {
    ghost use Rattle.std.specs.Prelude.{Some};
    ghost use Rattle.nextest_run_events_results.specs.Texts.{text_of_failure};

    ghost output = { λ it. Some (text_of_failure it) };

    fn fmt<W: fmt::Write>(&self, f: &mut fmt::Formatter<W>) -> fmt::Result {
        match self {
            FailureDescription::ExitCode { code } => write!(f, "exited with code {code}"),
            FailureDescription::Abort { abort } => write!(f, "{abort}"),
        }
    }
}

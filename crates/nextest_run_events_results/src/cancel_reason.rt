// Why a run was cancelled.
ghost use Rattle.std.specs.Prelude.{◌≡◌};
ghost use Rattle.nextest_run_events_results.specs.Cancel.{is_inner};
ghost use Rattle.nextest_run_events_results.specs.Texts.{reason_name};

/// Why a run was cancelled. The order of the variants is that of their gravity: a graver reason
/// takes the place of a lesser one.
#[derive(Clone, Copy, Debug, PartialEq, Eq, PartialOrd, Ord, Hash)]
pub enum CancelReason {
    /// A setup script failed.
    SetupScriptFailure,
    /// Enough tests failed, and what ran may end.
    TestFailure,
    /// The results could not be reported.
    ReportError,
    /// Enough tests failed, and what ran is ended.
    TestFailureImmediate,
    /// The run took too long.
    GlobalTimeout,
    /// A signal to end was received.
    Signal,
    /// An interrupt was received.
    Interrupt,
    /// A second signal was received, and the run is killed.
    SecondSignal,
}

impl CancelReason {
    /// Whether only a run itself gives the reason, so that neither a log nor a user can.
    pub fn is_inner(self) -> bool
        ensures { result ≡ is_inner self }
    {
        match self {
            CancelReason::SetupScriptFailure
            | CancelReason::TestFailure
            | CancelReason::TestFailureImmediate => true,
            CancelReason::ReportError
            | CancelReason::GlobalTimeout
            | CancelReason::Signal
            | CancelReason::Interrupt
            | CancelReason::SecondSignal => false,
        }
    }

    /// The reason in words. Both reasons of failed tests have the same.
    pub fn to_static_str(self) -> &'static str
        ensures { result.now ≡ reason_name self }
    {
        match self {
            CancelReason::SetupScriptFailure => "setup script failure",
            CancelReason::TestFailure => "test failure",
            CancelReason::ReportError => "reporting error",
            CancelReason::TestFailureImmediate => "test failure",
            CancelReason::GlobalTimeout => "global timeout",
            CancelReason::Signal => "signal",
            CancelReason::Interrupt => "interrupt",
            CancelReason::SecondSignal => "second signal",
        }
    }
}

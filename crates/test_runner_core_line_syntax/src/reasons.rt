// The words of the reasons why a run stops.
ghost use Rattle.std.specs.Prelude.{◌≡◌};
ghost use Rattle.test_runner_core_line_syntax.specs.Spelling.{reason_word};

use nextest_run_events_results::CancelReason;

/// The reason in words joined by hyphens, as a log and a report name it. Each reason has a word of
/// its own, also those that only a run itself gives and no log spells.
pub fn reason_word(reason: CancelReason) -> &'static str
    ensures { result.now ≡ reason_word reason }
{
    match reason {
        CancelReason::SetupScriptFailure => "setup-script-failure",
        CancelReason::TestFailure => "test-failure",
        CancelReason::ReportError => "report-error",
        CancelReason::TestFailureImmediate => "test-failure-immediate",
        CancelReason::GlobalTimeout => "global-timeout",
        CancelReason::Signal => "signal",
        CancelReason::Interrupt => "interrupt",
        CancelReason::SecondSignal => "second-signal",
    }
}

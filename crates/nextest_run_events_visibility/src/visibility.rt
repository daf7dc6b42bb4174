// What is shown of a finished test, when it ends and when the run ends.
ghost use Rattle.std.specs.Prelude.{◌≡◌};
ghost use Rattle.nextest_run_events_visibility.specs.Visibility.{ends_at_once, was_ended_by_run, shows_at_once, is_stored, shows_output_at_end, visibility_of};

use nextest_config_elements_choices::{FinalStatusLevel, StatusLevel, TestOutputDisplay};
use nextest_run_events_results::{CancelReason, ExecutionResultDescription};

/// Which statuses are shown, as they are set for a run.
#[derive(PartialEq, Eq, Drop)]
pub struct StatusLevels {
    /// Which are shown while tests run.
    pub status_level: StatusLevel,
    /// Which are shown at the end of the run.
    pub final_status_level: FinalStatusLevel,
}

/// What is shown of a finished test.
#[derive(Debug, PartialEq, Eq, Drop)]
pub struct OutputOnTestFinished {
    /// Whether its status line is written when it ends.
    pub write_status_line: bool,
    /// Whether its output is shown when it ends.
    pub show_immediate: bool,
    /// What is kept of it for the end of the run.
    pub store_final: OutputStoreFinal,
}

/// What is kept of a finished test for the end of the run.
#[derive(Debug, PartialEq, Eq, Drop)]
pub enum OutputStoreFinal {
    /// Nothing.
    No,
    /// Its status.
    Yes {
        /// Whether its output is shown with the status.
        display_output: bool,
    },
}

impl StatusLevels {
    /// What is shown of a test that ended by `execution_result`, where its output is displayed as
    /// `display` says and the run was cancelled for `cancel_status`, or goes on where that is
    /// `None`. `test_status_level` and `test_final_status_level` are the lowest levels that show
    /// the test's status.
    pub fn compute_output_on_test_finished(
        &self,
        display: TestOutputDisplay,
        cancel_status: Option<CancelReason>,
        test_status_level: StatusLevel,
        test_final_status_level: FinalStatusLevel,
        execution_result: &ExecutionResultDescription,
    ) -> OutputOnTestFinished
        ensures { result ≡ visibility_of self.now display cancel_status test_status_level
            test_final_status_level execution_result.now }
    {
        let store_final = if is_stored(
            self.final_status_level,
            display,
            cancel_status,
            test_final_status_level,
            execution_result,
        ) {
            OutputStoreFinal::Yes {
                display_output: shows_output_at_end(display, cancel_status),
            }
        } else {
            OutputStoreFinal::No
        };
        OutputOnTestFinished {
            write_status_line: test_status_level <= self.status_level,
            show_immediate: shows_at_once(display, cancel_status, execution_result),
            store_final,
        }
    }
}

// Whether a test's output is shown when the test ends.
fn shows_at_once(
    display: TestOutputDisplay,
    reason: Option<CancelReason>,
    execution_result: &ExecutionResultDescription,
) -> bool
    ensures { result ≡ shows_at_once display reason execution_result.now }
{
    if was_ended_by_run(reason, execution_result) {
        return false;
    }
    display.is_immediate() && reason <= Some(CancelReason::Signal)
}

// Whether a test's status is kept for the end of the run, where `set` is the level that is set.
fn is_stored(
    set: FinalStatusLevel,
    display: TestOutputDisplay,
    reason: Option<CancelReason>,
    level: FinalStatusLevel,
    execution_result: &ExecutionResultDescription,
) -> bool
    ensures { result ≡ is_stored display reason set level execution_result.now }
{
    if ends_at_once(reason) || was_ended_by_run(reason, execution_result) {
        return false;
    }
    display.is_final() || level <= set
}

// Whether the run is to end with nothing said behind it.
fn ends_at_once(reason: Option<CancelReason>) -> bool
    ensures { result ≡ ends_at_once reason }
{
    matches!(
        reason,
        Some(CancelReason::Interrupt | CancelReason::SecondSignal)
    )
}

// Whether it was the run that ended a test with this result.
fn was_ended_by_run(
    reason: Option<CancelReason>,
    execution_result: &ExecutionResultDescription,
) -> bool
    ensures { result ≡ was_ended_by_run reason execution_result.now }
{
    match reason {
        Some(CancelReason::TestFailureImmediate) => execution_result.is_termination_failure(),
        _ => false,
    }
}

// Whether the output of a test whose status is kept is shown with it.
fn shows_output_at_end(display: TestOutputDisplay, reason: Option<CancelReason>) -> bool
    ensures { result ≡ shows_output_at_end display reason }
{
    let seen = display.is_immediate() && matches!(reason, Some(CancelReason::Signal));
    display.is_final() && !seen
}

// What a profile sets of what is shown of tests.
ghost use Rattle.std.specs.Prelude.{◌≡◌, if◌then◌else◌};
ghost use Rattle.test_runner_core_report_lines.specs.Due.{due_after, finished_in};

use crate::finished_test::FinishedTest;
use nextest_config_elements_choices::TestOutputDisplay;
use nextest_run_events_results::CancelReason;
use nextest_run_events_visibility::{OutputOnTestFinished, StatusLevels};

/// What a profile sets of what is shown of tests.
#[derive(Drop)]
pub struct Shows {
    /// Which statuses are shown.
    pub levels: StatusLevels,
    /// When the outputs of a test are shown whose last attempt is a success.
    pub success_output: TestOutputDisplay,
    /// When those of any other test are shown.
    pub failure_output: TestOutputDisplay,
}

impl Shows {
    // When the outputs of a test are shown whose last attempt is a success, or isn't.
    fn display(&self, success: bool) -> TestOutputDisplay
        ensures { result ≡ (if success then self.now.success_output else self.now.failure_output) }
    {
        if success {
            self.success_output
        } else {
            self.failure_output
        }
    }

    // What is due of a test that finished so under this reason.
    pub(crate) fn due_after(
        &self,
        reason: Option<CancelReason>,
        test: FinishedTest<'_>,
    ) -> OutputOnTestFinished
        ensures { result ≡ due_after self.now reason (finished_in test.entry) }
    {
        self.levels.compute_output_on_test_finished(
            self.display(test.result.is_success()),
            reason,
            test.status_level(),
            test.final_status_level(),
            test.result,
        )
    }
}

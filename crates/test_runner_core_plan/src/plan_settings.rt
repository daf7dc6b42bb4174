// The settings of a selected test.
use nextest_config_elements_choices::{FailWeight, FlakyResult, TestOutputDisplay};
use nextest_config_elements_identifiers::TestGroup;
use nextest_config_elements_values::{
    JunitFlakyFailStatus, LeakTimeout, ReportSkipPolicy, RetryPolicy, SlowTimeout, TestPriority,
    ThreadsRequired,
};
use nextest_config_resolution_scripts::WrapperScriptConfig;
use nextest_text::{Listing, Text};
use std::alloc::AllocError;

/// The settings of a selected test, as a plan keeps them: those of `TestSettings`, owned.
#[derive(PartialEq, Eq)]
pub struct PlanSettings {
    /// `priority`: before which tests it runs.
    pub priority: TestPriority,
    /// `threads-required`: how many threads it takes.
    pub threads_required: ThreadsRequired,
    /// `run-wrapper`: the script that its command is handed to, if there is one.
    pub run_wrapper: Option<WrapperScriptConfig>,
    /// `run-extra-args`: the arguments that it is run with besides.
    pub run_extra_args: Listing<Text>,
    /// `retries`: how it is tried again.
    pub retries: RetryPolicy,
    /// `flaky-result`: what becomes of it where it passes on a later attempt than its first.
    pub flaky_result: FlakyResult,
    /// `fail-weight`: how much it weighs where it fails.
    pub fail_weight: FailWeight,
    /// `slow-timeout`: when it is slow, and when it is ended for that.
    pub slow_timeout: SlowTimeout,
    /// `leak-timeout`: how long handles may stay open behind it.
    pub leak_timeout: LeakTimeout,
    /// `test-group`: the group that it is in.
    pub test_group: TestGroup,
    /// `success-output`: when its output is shown where it passes.
    pub success_output: TestOutputDisplay,
    /// `failure-output`: when its output is shown where it fails.
    pub failure_output: TestOutputDisplay,
    /// `junit.store-success-output`: whether the report in JUnit's form has its outputs where it
    /// passes.
    pub junit_store_success_output: bool,
    /// `junit.store-failure-output`: whether that report has its outputs where it fails.
    pub junit_store_failure_output: bool,
    /// `junit.report-skipped`: which skipped tests are in that report.
    pub junit_report_skipped: ReportSkipPolicy,
    /// `junit.flaky-fail-status`: how it stands there where it fails since it is flaky.
    pub junit_flaky_fail_status: JunitFlakyFailStatus,
}

impl Clone for PlanSettings {
    ghost use Rattle.std.specs.Prelude.{◌≡◌};

    ghost is_clone = { λ original copy. copy ≡ original };

    fn clone(&self) -> Result<PlanSettings, AllocError> {
        let run_wrapper = self.run_wrapper.clone()?;
        let run_extra_args = self.run_extra_args.clone()?;
        let test_group = self.test_group.clone()?;
        Ok(PlanSettings {
            run_wrapper,
            run_extra_args,
            test_group,
            ..*self
        })
    }
}

// One call drops it, whoever holds it.
impl Drop for PlanSettings {
    fn drop(self) {
        let Self {
            priority: _,
            threads_required: _,
            run_wrapper: _,
            run_extra_args: _,
            retries: _,
            flaky_result: _,
            fail_weight: _,
            slow_timeout: _,
            leak_timeout: _,
            test_group: _,
            success_output: _,
            failure_output: _,
            junit_store_success_output: _,
            junit_store_failure_output: _,
            junit_report_skipped: _,
            junit_flaky_fail_status: _,
        } = self;
    }
}

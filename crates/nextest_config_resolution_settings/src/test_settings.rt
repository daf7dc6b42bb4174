// The settings of a test.
ghost use Rattle.std.specs.Prelude.{◌≡◌};

use nextest_config_elements_choices::{FailWeight, FlakyResult, TestOutputDisplay};
use nextest_config_elements_identifiers::CustomTestGroup;
use nextest_config_elements_values::{
    JunitFlakyFailStatus, LeakTimeout, ReportSkipPolicy, RetryPolicy, SlowTimeout, TestPriority,
    ThreadsRequired,
};
use nextest_config_resolution_scripts::WrapperScriptConfig;
use nextest_text::Text;
use std::alloc::AllocError;

/// The group that a test is in, lent.
#[derive(Clone, Copy)]
pub enum TestGroupRef<'p> {
    /// `@global`: the group of all tests that no rule puts into another.
    Global,
    /// A group that a configuration names.
    Custom(&'p CustomTestGroup),
}

/// The settings of a test. With each stands what is kept of where it is taken from: nothing, or a
/// `SettingSource`.
#[derive(Drop)]
pub struct TestSettings<'p, Source = ()> {
    /// `priority`: before which tests it runs.
    pub priority: (TestPriority, Source),
    /// `threads-required`: how many threads it takes.
    pub threads_required: (ThreadsRequired, Source),
    /// `run-wrapper`: the script that its command is handed to, if there is one.
    pub run_wrapper: (Option<&'p WrapperScriptConfig>, Source),
    /// `run-extra-args`: the arguments that it is run with besides.
    pub run_extra_args: (&'p [Text], Source),
    /// `retries`: how it is tried again.
    pub retries: (RetryPolicy, Source),
    /// `flaky-result`: what becomes of it where it passes on a later attempt than its first.
    pub flaky_result: (FlakyResult, Source),
    /// `fail-weight`: how much it weighs where it fails.
    pub fail_weight: (FailWeight, Source),
    /// `slow-timeout`: when it is slow, and when it is ended for that.
    pub slow_timeout: (SlowTimeout, Source),
    /// `leak-timeout`: how long handles may stay open behind it.
    pub leak_timeout: (LeakTimeout, Source),
    /// `test-group`: the group that it is in.
    pub test_group: (TestGroupRef<'p>, Source),
    /// `success-output`: when its output is shown where it passes.
    pub success_output: (TestOutputDisplay, Source),
    /// `failure-output`: when its output is shown where it fails.
    pub failure_output: (TestOutputDisplay, Source),
    /// `junit.store-success-output`: whether the report has its outputs where it passes.
    pub junit_store_success_output: (bool, Source),
    /// `junit.store-failure-output`: whether the report has its outputs where it fails.
    pub junit_store_failure_output: (bool, Source),
    /// `junit.report-skipped`: which skipped tests are reported.
    pub junit_report_skipped: (ReportSkipPolicy, Source),
    /// `junit.flaky-fail-status`: how it is reported where it fails since it is flaky.
    pub junit_flaky_fail_status: (JunitFlakyFailStatus, Source),
}

impl<'p, Source: Copy> Clone for TestSettings<'p, Source> {
    ghost use Rattle.std.specs.Prelude.{◌≡◌};

    ghost is_clone = { λ original copy. copy ≡ original };

    fn clone(&self) -> Result<TestSettings<'p, Source>, AllocError> {
        Ok(TestSettings {
            priority: both(&self.priority),
            threads_required: both(&self.threads_required),
            run_wrapper: both(&self.run_wrapper),
            run_extra_args: both(&self.run_extra_args),
            retries: both(&self.retries),
            flaky_result: both(&self.flaky_result),
            fail_weight: both(&self.fail_weight),
            slow_timeout: both(&self.slow_timeout),
            leak_timeout: both(&self.leak_timeout),
            test_group: both(&self.test_group),
            success_output: both(&self.success_output),
            failure_output: both(&self.failure_output),
            junit_store_success_output: both(&self.junit_store_success_output),
            junit_store_failure_output: both(&self.junit_store_failure_output),
            junit_report_skipped: both(&self.junit_report_skipped),
            junit_flaky_fail_status: both(&self.junit_flaky_fail_status),
        })
    }
}

impl<'p, Source> TestSettings<'p, Source> {
    /// `priority`: before which tests it runs.
    pub fn priority(&self) -> TestPriority
        ensures { result ≡ self.now.priority.0 }
    {
        self.priority.0
    }

    /// `threads-required`: how many threads it takes.
    pub fn threads_required(&self) -> ThreadsRequired
        ensures { result ≡ self.now.threads_required.0 }
    {
        self.threads_required.0
    }

    /// `run-wrapper`: the script that its command is handed to, if there is one.
    pub fn run_wrapper(&self) -> Option<&'p WrapperScriptConfig>
        ensures { result ≡ self.now.run_wrapper.0 }
    {
        self.run_wrapper.0
    }

    /// `run-extra-args`: the arguments that it is run with besides.
    pub fn run_extra_args(&self) -> &'p [Text]
        ensures { result ≡ self.now.run_extra_args.0 }
    {
        self.run_extra_args.0
    }

    /// `retries`: how it is tried again.
    pub fn retries(&self) -> RetryPolicy
        ensures { result ≡ self.now.retries.0 }
    {
        self.retries.0
    }

    /// `flaky-result`: what becomes of it where it passes on a later attempt than its first.
    pub fn flaky_result(&self) -> FlakyResult
        ensures { result ≡ self.now.flaky_result.0 }
    {
        self.flaky_result.0
    }

    /// `fail-weight`: how much it weighs where it fails.
    pub fn fail_weight(&self) -> FailWeight
        ensures { result ≡ self.now.fail_weight.0 }
    {
        self.fail_weight.0
    }

    /// `slow-timeout`: when it is slow, and when it is ended for that.
    pub fn slow_timeout(&self) -> SlowTimeout
        ensures { result ≡ self.now.slow_timeout.0 }
    {
        self.slow_timeout.0
    }

    /// `leak-timeout`: how long handles may stay open behind it.
    pub fn leak_timeout(&self) -> LeakTimeout
        ensures { result ≡ self.now.leak_timeout.0 }
    {
        self.leak_timeout.0
    }

    /// `test-group`: the group that it is in.
    pub fn test_group(&self) -> TestGroupRef<'p>
        ensures { result ≡ self.now.test_group.0 }
    {
        self.test_group.0
    }

    /// `success-output`: when its output is shown where it passes.
    pub fn success_output(&self) -> TestOutputDisplay
        ensures { result ≡ self.now.success_output.0 }
    {
        self.success_output.0
    }

    /// `failure-output`: when its output is shown where it fails.
    pub fn failure_output(&self) -> TestOutputDisplay
        ensures { result ≡ self.now.failure_output.0 }
    {
        self.failure_output.0
    }

    /// `junit.store-success-output`: whether the report has its outputs where it passes.
    pub fn junit_store_success_output(&self) -> bool
        ensures { result ≡ self.now.junit_store_success_output.0 }
    {
        self.junit_store_success_output.0
    }

    /// `junit.store-failure-output`: whether the report has its outputs where it fails.
    pub fn junit_store_failure_output(&self) -> bool
        ensures { result ≡ self.now.junit_store_failure_output.0 }
    {
        self.junit_store_failure_output.0
    }

    /// `junit.report-skipped`: which skipped tests are reported.
    pub fn junit_report_skipped(&self) -> ReportSkipPolicy
        ensures { result ≡ self.now.junit_report_skipped.0 }
    {
        self.junit_report_skipped.0
    }

    /// `junit.flaky-fail-status`: how it is reported where it fails since it is flaky.
    pub fn junit_flaky_fail_status(&self) -> JunitFlakyFailStatus
        ensures { result ≡ self.now.junit_flaky_fail_status.0 }
    {
        self.junit_flaky_fail_status.0
    }
}

// A value, and what is kept of where it is taken from.
pub(crate) fn both<T: Copy, Source: Copy>(setting: &(T, Source)) -> (T, Source)
    ensures { result ≡ setting.now }
{
    (setting.0, setting.1)
}

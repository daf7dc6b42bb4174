// The keys that tell how a test is shown and reported.
use crate::from_keys::FromKeys;
use crate::has_key::KeyValues;
use crate::junit::{
    JunitFlakyFailStatusKey, JunitReportSkippedKey, JunitStoreFailureOutputKey,
    JunitStoreSuccessOutputKey,
};
use crate::key_list::KeyList;
use crate::output::{FailureOutputKey, SuccessOutputKey};
use nextest_config_elements_choices::TestOutputDisplay;
use nextest_config_elements_values::{JunitFlakyFailStatus, ReportSkipPolicy};
use std::alloc::Global;

/// The keys that tell how a test is shown and reported. Profiles and overrides have them.
pub type ReportKeys = (
    FailureOutputKey,
    (
        JunitFlakyFailStatusKey,
        (
            JunitReportSkippedKey,
            (
                JunitStoreFailureOutputKey,
                (JunitStoreSuccessOutputKey, (SuccessOutputKey, ())),
            ),
        ),
    ),
);

/// The values of these keys, as a table has them. Each is `None` where its key is left out.
pub struct ReportValues {
    /// `failure-output`: when the output of a test is shown where it fails.
    pub failure_output: Option<TestOutputDisplay>,
    /// `junit.flaky-fail-status`: how a test is reported that fails since it is flaky.
    pub junit_flaky_fail_status: Option<JunitFlakyFailStatus>,
    /// `junit.report-skipped`: which skipped tests are reported.
    pub junit_report_skipped: Option<ReportSkipPolicy>,
    /// `junit.store-failure-output`: whether the report has outputs of tests that fail.
    pub junit_store_failure_output: Option<bool>,
    /// `junit.store-success-output`: whether the report has outputs of tests that pass.
    pub junit_store_success_output: Option<bool>,
    /// `success-output`: when the output of a test is shown where it passes.
    pub success_output: Option<TestOutputDisplay>,
}

// One call drops it, whoever holds it.
impl Drop for ReportValues {
    fn drop(self) {
        let Self {
            failure_output: _,
            junit_flaky_fail_status: _,
            junit_report_skipped: _,
            junit_store_failure_output: _,
            junit_store_success_output: _,
            success_output: _,
        } = self;
    }
}

impl KeyValues for ReportValues {
    ghost use Rattle.nextest_config_resolution_keys.specs.Report.{report_in};

    ghost reading = { report_in };
}

impl FromKeys<ReportKeys> for ReportValues {
    ghost use Rattle.nextest_config_resolution_keys.specs.Report.{report_values};

    ghost made = { report_values };

    fn from_values(_alloc: Global, values: <ReportKeys as KeyList>::Values) -> ReportValues {
        let (
            failure_output,
            (
                junit_flaky_fail_status,
                (
                    junit_report_skipped,
                    (
                        junit_store_failure_output,
                        (junit_store_success_output, (success_output, ())),
                    ),
                ),
            ),
        ) = values;
        ReportValues {
            failure_output,
            junit_flaky_fail_status,
            junit_report_skipped,
            junit_store_failure_output,
            junit_store_success_output,
            success_output,
        }
    }
}

// The keys in the table `junit`.
ghost use Rattle.std.specs.Prelude.{◌≡◌};
ghost use Rattle.nextest_config_resolution_keys.specs.Junit as keys;

use crate::config_key::{ConfigKey, HasFallback};
use crate::has_key::{HasKey, ListedKey};
use crate::own::OwnValues;
use crate::reading::read_text;
use crate::report::ReportValues;
use nextest_config_elements_deserialize::{
    Any, deserialize_junit_flaky_fail_status, deserialize_report_skip_policy, whole,
};
use nextest_config_elements_toml::ValueError;
use nextest_config_elements_values::{JunitFlakyFailStatus, ReportSkipPolicy};
use nextest_text::Text;
use std::alloc::Global;
use toml::Value;

/// `junit.flaky-fail-status`: how a test is reported that fails since it is flaky. Where nothing
/// sets it: as a failure.
pub struct JunitFlakyFailStatusKey;

impl ConfigKey for JunitFlakyFailStatusKey {
    type Value = JunitFlakyFailStatus;

    ghost key = { keys.junit_flaky_fail_status };

    fn path() -> &'static [&'static str] {
        &["junit", "flaky-fail-status"]
    }

    fn read(alloc: Global, value: &Value) -> Result<JunitFlakyFailStatus, ValueError> {
        deserialize_junit_flaky_fail_status(alloc, value, &[])
    }
}

impl HasFallback for JunitFlakyFailStatusKey {
    ghost fallback = { keys.junit_flaky_fail_status_fallback };

    fn fallback() -> JunitFlakyFailStatus {
        JunitFlakyFailStatus::Failure
    }
}

impl HasKey<JunitFlakyFailStatusKey> for ReportValues {
    ghost use Rattle.nextest_config_resolution_keys.specs.Report.{report_read};

    ghost value = { λ it. it.junit_flaky_fail_status };

    ghost reads = { λ given it is. (report_read given it is).junit_flaky_fail_status };

    fn value(&self) -> Option<&JunitFlakyFailStatus> {
        self.junit_flaky_fail_status.as_ref()
    }
}

impl ListedKey for JunitFlakyFailStatusKey {
    type Values = ReportValues;
}

/// `junit.path`: the file of the report.
pub struct JunitPathKey;

impl ConfigKey for JunitPathKey {
    type Value = Text;

    ghost key = { keys.junit_path };

    fn path() -> &'static [&'static str] {
        &["junit", "path"]
    }

    fn read(alloc: Global, value: &Value) -> Result<Text, ValueError> {
        read_text(alloc, value)
    }
}

impl HasKey<JunitPathKey> for OwnValues {
    ghost use Rattle.nextest_config_resolution_keys.specs.Own.{own_read};

    ghost value = { λ it. it.junit_path };

    ghost reads = { λ given it is. (own_read given it is).junit_path };

    fn value(&self) -> Option<&Text> {
        self.junit_path.as_ref()
    }
}

impl ListedKey for JunitPathKey {
    type Values = OwnValues;
}

/// `junit.report-name`: the name that stands in the report. Where nothing sets it: `nextest-run`.
pub struct JunitReportNameKey;

impl ConfigKey for JunitReportNameKey {
    type Value = Text;

    ghost key = { keys.junit_report_name };

    fn path() -> &'static [&'static str] {
        &["junit", "report-name"]
    }

    fn read(alloc: Global, value: &Value) -> Result<Text, ValueError> {
        read_text(alloc, value)
    }
}

impl HasKey<JunitReportNameKey> for OwnValues {
    ghost use Rattle.nextest_config_resolution_keys.specs.Own.{own_read};

    ghost value = { λ it. it.junit_report_name };

    ghost reads = { λ given it is. (own_read given it is).junit_report_name };

    fn value(&self) -> Option<&Text> {
        self.junit_report_name.as_ref()
    }
}

impl ListedKey for JunitReportNameKey {
    type Values = OwnValues;
}

/// `junit.report-skipped`: which skipped tests are reported. Where nothing sets it: none.
pub struct JunitReportSkippedKey;

impl ConfigKey for JunitReportSkippedKey {
    type Value = ReportSkipPolicy;

    ghost key = { keys.junit_report_skipped };

    fn path() -> &'static [&'static str] {
        &["junit", "report-skipped"]
    }

    fn read(alloc: Global, value: &Value) -> Result<ReportSkipPolicy, ValueError> {
        deserialize_report_skip_policy(alloc, value, &[])
    }
}

impl HasFallback for JunitReportSkippedKey {
    ghost fallback = { keys.junit_report_skipped_fallback };

    fn fallback() -> ReportSkipPolicy {
        ReportSkipPolicy::None
    }
}

impl HasKey<JunitReportSkippedKey> for ReportValues {
    ghost use Rattle.nextest_config_resolution_keys.specs.Report.{report_read};

    ghost value = { λ it. it.junit_report_skipped };

    ghost reads = { λ given it is. (report_read given it is).junit_report_skipped };

    fn value(&self) -> Option<&ReportSkipPolicy> {
        self.junit_report_skipped.as_ref()
    }
}

impl ListedKey for JunitReportSkippedKey {
    type Values = ReportValues;
}

/// `junit.store-failure-output`: whether the report has the outputs of tests that fail. Where
/// nothing sets it, it has.
pub struct JunitStoreFailureOutputKey;

impl ConfigKey for JunitStoreFailureOutputKey {
    type Value = bool;

    ghost key = { keys.junit_store_failure_output };

    fn path() -> &'static [&'static str] {
        &["junit", "store-failure-output"]
    }

    fn read(alloc: Global, value: &Value) -> Result<bool, ValueError> {
        whole::<Any, bool>(alloc, value, &[])
    }
}

impl HasFallback for JunitStoreFailureOutputKey {
    ghost fallback = { keys.junit_store_failure_output_fallback };

    fn fallback() -> bool {
        true
    }
}

impl HasKey<JunitStoreFailureOutputKey> for ReportValues {
    ghost use Rattle.nextest_config_resolution_keys.specs.Report.{report_read};

    ghost value = { λ it. it.junit_store_failure_output };

    ghost reads = { λ given it is. (report_read given it is).junit_store_failure_output };

    fn value(&self) -> Option<&bool> {
        self.junit_store_failure_output.as_ref()
    }
}

impl ListedKey for JunitStoreFailureOutputKey {
    type Values = ReportValues;
}

/// `junit.store-success-output`: whether the report has the outputs of tests that pass. Where
/// nothing sets it, it has not.
pub struct JunitStoreSuccessOutputKey;

impl ConfigKey for JunitStoreSuccessOutputKey {
    type Value = bool;

    ghost key = { keys.junit_store_success_output };

    fn path() -> &'static [&'static str] {
        &["junit", "store-success-output"]
    }

    fn read(alloc: Global, value: &Value) -> Result<bool, ValueError> {
        whole::<Any, bool>(alloc, value, &[])
    }
}

impl HasFallback for JunitStoreSuccessOutputKey {
    ghost fallback = { keys.junit_store_success_output_fallback };

    fn fallback() -> bool {
        false
    }
}

impl HasKey<JunitStoreSuccessOutputKey> for ReportValues {
    ghost use Rattle.nextest_config_resolution_keys.specs.Report.{report_read};

    ghost value = { λ it. it.junit_store_success_output };

    ghost reads = { λ given it is. (report_read given it is).junit_store_success_output };

    fn value(&self) -> Option<&bool> {
        self.junit_store_success_output.as_ref()
    }
}

impl ListedKey for JunitStoreSuccessOutputKey {
    type Values = ReportValues;
}

/// The name of a report where no profile sets `junit.report-name`.
pub fn junit_report_name_fallback() -> &'static str
    ensures { result.now ≡ keys.junit_report_name_fallback }
{
    "nextest-run"
}

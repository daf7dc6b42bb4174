// The keys that tell what is shown.
ghost use Rattle.nextest_config_resolution_keys.specs.Output as keys;

use crate::config_key::{ConfigKey, HasFallback};
use crate::has_key::{HasKey, ListedKey};
use crate::own::OwnValues;
use crate::report::ReportValues;
use nextest_config_elements_choices::{FinalStatusLevel, StatusLevel, TestOutputDisplay};
use nextest_config_elements_deserialize::{
    deserialize_final_status_level, deserialize_status_level, deserialize_test_output_display,
};
use nextest_config_elements_toml::ValueError;
use std::alloc::Global;
use toml::Value;

/// `failure-output`: when the output of a test is shown that fails. Where nothing sets it: at once.
pub struct FailureOutputKey;

impl ConfigKey for FailureOutputKey {
    type Value = TestOutputDisplay;

    ghost key = { keys.failure_output };

    fn path() -> &'static [&'static str] {
        &["failure-output"]
    }

    fn read(alloc: Global, value: &Value) -> Result<TestOutputDisplay, ValueError> {
        deserialize_test_output_display(alloc, value, &[])
    }
}

impl HasFallback for FailureOutputKey {
    ghost fallback = { keys.failure_output_fallback };

    fn fallback() -> TestOutputDisplay {
        TestOutputDisplay::Immediate
    }
}

impl HasKey<FailureOutputKey> for ReportValues {
    ghost use Rattle.nextest_config_resolution_keys.specs.Report.{report_read};

    ghost value = { λ it. it.failure_output };

    ghost reads = { λ given it is. (report_read given it is).failure_output };

    fn value(&self) -> Option<&TestOutputDisplay> {
        self.failure_output.as_ref()
    }
}

impl ListedKey for FailureOutputKey {
    type Values = ReportValues;
}

/// `final-status-level`: which statuses are shown at the end of a run. Where nothing sets it: up to
/// flaky tests.
pub struct FinalStatusLevelKey;

impl ConfigKey for FinalStatusLevelKey {
    type Value = FinalStatusLevel;

    ghost key = { keys.final_status_level };

    fn path() -> &'static [&'static str] {
        &["final-status-level"]
    }

    fn read(alloc: Global, value: &Value) -> Result<FinalStatusLevel, ValueError> {
        deserialize_final_status_level(alloc, value, &[])
    }
}

impl HasFallback for FinalStatusLevelKey {
    ghost fallback = { keys.final_status_level_fallback };

    fn fallback() -> FinalStatusLevel {
        FinalStatusLevel::Flaky
    }
}

impl HasKey<FinalStatusLevelKey> for OwnValues {
    ghost use Rattle.nextest_config_resolution_keys.specs.Own.{own_read};

    ghost value = { λ it. it.final_status_level };

    ghost reads = { λ given it is. (own_read given it is).final_status_level };

    fn value(&self) -> Option<&FinalStatusLevel> {
        self.final_status_level.as_ref()
    }
}

impl ListedKey for FinalStatusLevelKey {
    type Values = OwnValues;
}

/// `status-level`: which statuses are shown while tests run. Where nothing sets it: up to tests
/// that pass.
pub struct StatusLevelKey;

impl ConfigKey for StatusLevelKey {
    type Value = StatusLevel;

    ghost key = { keys.status_level };

    fn path() -> &'static [&'static str] {
        &["status-level"]
    }

    fn read(alloc: Global, value: &Value) -> Result<StatusLevel, ValueError> {
        deserialize_status_level(alloc, value, &[])
    }
}

impl HasFallback for StatusLevelKey {
    ghost fallback = { keys.status_level_fallback };

    fn fallback() -> StatusLevel {
        StatusLevel::Pass
    }
}

impl HasKey<StatusLevelKey> for OwnValues {
    ghost use Rattle.nextest_config_resolution_keys.specs.Own.{own_read};

    ghost value = { λ it. it.status_level };

    ghost reads = { λ given it is. (own_read given it is).status_level };

    fn value(&self) -> Option<&StatusLevel> {
        self.status_level.as_ref()
    }
}

impl ListedKey for StatusLevelKey {
    type Values = OwnValues;
}

/// `success-output`: when the output of a test is shown that passes. Where nothing sets it: never.
pub struct SuccessOutputKey;

impl ConfigKey for SuccessOutputKey {
    type Value = TestOutputDisplay;

    ghost key = { keys.success_output };

    fn path() -> &'static [&'static str] {
        &["success-output"]
    }

    fn read(alloc: Global, value: &Value) -> Result<TestOutputDisplay, ValueError> {
        deserialize_test_output_display(alloc, value, &[])
    }
}

impl HasFallback for SuccessOutputKey {
    ghost fallback = { keys.success_output_fallback };

    fn fallback() -> TestOutputDisplay {
        TestOutputDisplay::Never
    }
}

impl HasKey<SuccessOutputKey> for ReportValues {
    ghost use Rattle.nextest_config_resolution_keys.specs.Report.{report_read};

    ghost value = { λ it. it.success_output };

    ghost reads = { λ given it is. (report_read given it is).success_output };

    fn value(&self) -> Option<&TestOutputDisplay> {
        self.success_output.as_ref()
    }
}

impl ListedKey for SuccessOutputKey {
    type Values = ReportValues;
}

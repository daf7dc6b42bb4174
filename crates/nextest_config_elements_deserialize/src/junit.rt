// What a JUnit report has of tests that are skipped or flaky.
ghost use Rattle.toml.specs.View.{view};
ghost use Rattle.nextest_config_elements_toml.specs.Paths.{Gives};
ghost use Rattle.nextest_config_elements_deserialize.specs.Junit as read;

use crate::config_value::{ConfigValue, whole};
use crate::values::Any;
use nextest_config_elements_toml::ValueError;
use nextest_config_elements_values::{JunitFlakyFailStatus, ReportSkipPolicy};
use std::alloc::Global;
use toml::Value;

/// Which skipped tests are reported: `none`, `ignored` or `all`. An `Err` for everything else.
pub fn deserialize_report_skip_policy(
    alloc: Global,
    value: &Value,
    path: &[&str],
) -> Result<ReportSkipPolicy, ValueError>
    ensures { Gives path.now result (read.report_skip_policy_in (view value.now)) }
{
    whole::<Any, ReportSkipPolicy>(alloc, value, path)
}

/// How a test is reported that fails since it is flaky: `failure` or `success`. An `Err` for
/// everything else.
pub fn deserialize_junit_flaky_fail_status(
    alloc: Global,
    value: &Value,
    path: &[&str],
) -> Result<JunitFlakyFailStatus, ValueError>
    ensures { Gives path.now result (read.junit_flaky_fail_status_in (view value.now)) }
{
    whole::<Any, JunitFlakyFailStatus>(alloc, value, path)
}

impl ConfigValue<Any> for ReportSkipPolicy {
    ghost meaning = { read.report_skip_policy };

    fn expected() -> &'static str {
        "`none`, `ignored` or `all`"
    }

    fn from_value(value: &Value) -> Option<ReportSkipPolicy> {
        match value.as_str()? {
            "none" => Some(ReportSkipPolicy::None),
            "ignored" => Some(ReportSkipPolicy::Ignored),
            "all" => Some(ReportSkipPolicy::All),
            _ => None,
        }
    }
}

impl ConfigValue<Any> for JunitFlakyFailStatus {
    ghost meaning = { read.flaky_fail_status };

    fn expected() -> &'static str {
        "`failure` or `success`"
    }

    fn from_value(value: &Value) -> Option<JunitFlakyFailStatus> {
        match value.as_str()? {
            "failure" => Some(JunitFlakyFailStatus::Failure),
            "success" => Some(JunitFlakyFailStatus::Success),
            _ => None,
        }
    }
}

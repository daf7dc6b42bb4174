// What is one of some words.
ghost use Rattle.toml.specs.View.{view};
ghost use Rattle.nextest_config_elements_toml.specs.Paths.{Gives};
ghost use Rattle.nextest_config_elements_deserialize.specs.Levels as read;

use crate::config_value::whole;
use crate::values::Any;
use nextest_config_elements_choices::{
    FinalStatusLevel, FlakyResult, LeakTimeoutResult, SlowTimeoutResult, StatusLevel,
    TerminateMode, TestOutputDisplay,
};
use nextest_config_elements_toml::ValueError;
use std::alloc::Global;
use toml::Value;

/// What becomes of a test that passes on a later attempt than its first: `pass` or `fail`. An `Err`
/// for everything else.
pub fn deserialize_flaky_result(
    alloc: Global,
    value: &Value,
    path: &[&str],
) -> Result<FlakyResult, ValueError>
    ensures { Gives path.now result (read.flaky_result_in (view value.now)) }
{
    whole::<Any, FlakyResult>(alloc, value, path)
}

/// Which statuses are shown while tests run: `none`, `fail`, `retry`, `slow`, `leak`, `pass`,
/// `skip` or `all`. An `Err` for everything else.
pub fn deserialize_status_level(
    alloc: Global,
    value: &Value,
    path: &[&str],
) -> Result<StatusLevel, ValueError>
    ensures { Gives path.now result (read.status_level_in (view value.now)) }
{
    whole::<Any, StatusLevel>(alloc, value, path)
}

/// Which statuses are shown at the end of a run: `none`, `fail`, `flaky` or `retry`, which are one,
/// `slow`, `skip`, `leak`, `pass` or `all`. An `Err` for everything else.
pub fn deserialize_final_status_level(
    alloc: Global,
    value: &Value,
    path: &[&str],
) -> Result<FinalStatusLevel, ValueError>
    ensures { Gives path.now result (read.final_status_level_in (view value.now)) }
{
    whole::<Any, FinalStatusLevel>(alloc, value, path)
}

/// When an output is shown: `immediate`, `immediate-final`, `final` or `never`. An `Err` for
/// everything else.
pub fn deserialize_test_output_display(
    alloc: Global,
    value: &Value,
    path: &[&str],
) -> Result<TestOutputDisplay, ValueError>
    ensures { Gives path.now result (read.output_display_in (view value.now)) }
{
    whole::<Any, TestOutputDisplay>(alloc, value, path)
}

/// How a run ends that is stopped by failing tests: `wait` or `immediate`. An `Err` for everything
/// else.
pub fn deserialize_terminate_mode(
    alloc: Global,
    value: &Value,
    path: &[&str],
) -> Result<TerminateMode, ValueError>
    ensures { Gives path.now result (read.terminate_mode_in (view value.now)) }
{
    whole::<Any, TerminateMode>(alloc, value, path)
}

/// What becomes of a process that is ended since it took too long: `fail` or `pass`. An `Err` for
/// everything else.
pub fn deserialize_slow_timeout_result(
    alloc: Global,
    value: &Value,
    path: &[&str],
) -> Result<SlowTimeoutResult, ValueError>
    ensures { Gives path.now result (read.slow_timeout_result_in (view value.now)) }
{
    whole::<Any, SlowTimeoutResult>(alloc, value, path)
}

/// What becomes of a process that leaves handles open: `pass` or `fail`. An `Err` for everything
/// else.
pub fn deserialize_leak_timeout_result(
    alloc: Global,
    value: &Value,
    path: &[&str],
) -> Result<LeakTimeoutResult, ValueError>
    ensures { Gives path.now result (read.leak_timeout_result_in (view value.now)) }
{
    whole::<Any, LeakTimeoutResult>(alloc, value, path)
}

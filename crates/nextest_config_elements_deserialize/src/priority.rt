// In which order tests run.
ghost use Rattle.std.specs.Prelude.{◌≡◌};
ghost use Rattle.std.specs.Result.{result_ok};
ghost use Rattle.toml.specs.View.{view};
ghost use Rattle.nextest_config_elements_values.specs.Priority.{priority_of};
ghost use Rattle.nextest_config_elements_toml.specs.Paths.{Gives};
ghost use Rattle.nextest_config_elements_deserialize.specs.Priority as read;

use crate::config_value::{ConfigValue, whole};
use crate::values::Any;
use nextest_config_elements_toml::ValueError;
use nextest_config_elements_values::TestPriority;
use std::alloc::Global;
use toml::Value;

/// The priority of a test: an integer from -100 to 100. An `Err` for everything else.
pub fn deserialize_test_priority(
    alloc: Global,
    value: &Value,
    path: &[&str],
) -> Result<TestPriority, ValueError>
    ensures { Gives path.now result (read.test_priority_in (view value.now)) }
{
    whole::<Any, TestPriority>(alloc, value, path)
}

impl ConfigValue<Any> for TestPriority {
    ghost meaning = { read.priority };

    fn expected() -> &'static str {
        "an integer from -100 to 100"
    }

    fn from_value(value: &Value) -> Option<TestPriority> {
        match value {
            Value::Integer(number) => priority_of(*number),
            _ => None,
        }
    }
}

// The priority that a number is.
fn priority_of(number: i64) -> Option<TestPriority>
    ensures { result ≡ result_ok (priority_of number) }
{
    if -100 <= number && number <= 100 {
        TestPriority::new(number as i8).ok()
    } else {
        None
    }
}

// How much a failing test weighs.
ghost use Rattle.std.specs.Prelude.{◌≡◌};
ghost use Rattle.toml.specs.View.{view};
ghost use Rattle.nextest_config_elements_toml.specs.Paths.{Gives};
ghost use Rattle.nextest_config_elements_deserialize.specs.FailWeights as read;

use crate::config_value::{ConfigValue, whole};
use crate::values::Any;
use nextest_config_elements_choices::FailWeight;
use nextest_config_elements_toml::ValueError;
use std::alloc::Global;
use toml::Value;

/// How much a failing test weighs: an integer from 1 to 100. An `Err` for everything else.
pub fn deserialize_fail_weight(
    alloc: Global,
    value: &Value,
    path: &[&str],
) -> Result<FailWeight, ValueError>
    ensures { Gives path.now result (read.fail_weight_in (view value.now)) }
{
    whole::<Any, FailWeight>(alloc, value, path)
}

impl ConfigValue<Any> for FailWeight {
    ghost meaning = { read.fail_weight };

    fn expected() -> &'static str {
        "an integer from 1 to 100"
    }

    fn from_value(value: &Value) -> Option<FailWeight> {
        match value {
            Value::Integer(number) => match u8::try_from(*number) {
                Ok(number) => FailWeight::new(number).ok(),
                Err(_) => None,
            },
            _ => None,
        }
    }
}

// The values that have no parts, and stand under more than one key.
use crate::config_value::ConfigValue;
use nextest_config_elements_values::ConfigDuration;
use toml::Value;

/// The rule of a type whose values all may stand: any number of it, any duration, each of its
/// words.
#[derive(Drop)]
pub struct Any;

/// The rule by which a value is above 0.
#[derive(Drop)]
pub struct Positive;

impl ConfigValue<Any> for u32 {
    ghost use Rattle.nextest_config_elements_deserialize.specs.Values.{number_32};

    ghost meaning = { number_32 };

    fn expected() -> &'static str {
        "an integer from 0 to 4294967295"
    }

    fn from_value(value: &Value) -> Option<u32> {
        match value {
            Value::Integer(number) => u32::try_from(*number).ok(),
            _ => None,
        }
    }
}

impl ConfigValue<Positive> for u32 {
    ghost use Rattle.nextest_config_elements_deserialize.specs.Values.{positive_32};

    ghost meaning = { positive_32 };

    fn expected() -> &'static str {
        "an integer from 1 to 4294967295"
    }

    fn from_value(value: &Value) -> Option<u32> {
        let number: u32 = <u32 as ConfigValue<Any>>::from_value(value)?;
        if number > 0 { Some(number) } else { None }
    }
}

impl ConfigValue<Positive> for u64 {
    ghost use Rattle.nextest_config_elements_deserialize.specs.Values.{positive};

    ghost meaning = { positive };

    fn expected() -> &'static str {
        "an integer from 1 to 9223372036854775807"
    }

    fn from_value(value: &Value) -> Option<u64> {
        let Value::Integer(number) = value else {
            return None;
        };
        match u64::try_from(*number) {
            Ok(number) if number > 0 => Some(number),
            _ => None,
        }
    }
}

impl ConfigValue<Any> for bool {
    ghost use Rattle.nextest_config_elements_deserialize.specs.Values.{truth};

    ghost meaning = { truth };

    fn expected() -> &'static str {
        "true or false"
    }

    fn from_value(value: &Value) -> Option<bool> {
        match value {
            Value::Boolean(holds) => Some(*holds),
            _ => None,
        }
    }
}

impl ConfigValue<Any> for ConfigDuration {
    ghost use Rattle.nextest_config_elements_deserialize.specs.Values.{duration};

    ghost meaning = { duration };

    fn expected() -> &'static str {
        "a duration, as `1h 30m`"
    }

    fn from_value(value: &Value) -> Option<ConfigDuration> {
        match value {
            Value::String(text) => ConfigDuration::parse(text.as_str()).ok(),
            _ => None,
        }
    }
}

impl ConfigValue<Positive> for ConfigDuration {
    ghost use Rattle.nextest_config_elements_deserialize.specs.Values.{positive_duration};

    ghost meaning = { positive_duration };

    fn expected() -> &'static str {
        "a duration above 0, as `1h 30m`"
    }

    fn from_value(value: &Value) -> Option<ConfigDuration> {
        let duration: ConfigDuration = <ConfigDuration as ConfigValue<Any>>::from_value(value)?;
        if duration.is_zero() {
            None
        } else {
            Some(duration)
        }
    }
}

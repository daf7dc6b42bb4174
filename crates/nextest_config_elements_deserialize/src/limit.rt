// At which weight failing tests stop a run.
use crate::config_value::ConfigValue;
use crate::values::Any;
use toml::Value;

// At which weight failing tests stop a run.
#[derive(Clone, Copy)]
pub(crate) enum Limit {
    // At so much.
    Count(usize),
    // At none.
    All,
}

impl ConfigValue<Any> for Limit {
    ghost use Rattle.nextest_config_elements_deserialize.specs.Limits.{limit};

    ghost meaning = { limit };

    fn expected() -> &'static str {
        "an integer from 1 to 9223372036854775807 or `all`"
    }

    fn from_value(value: &Value) -> Option<Limit> {
        match value {
            Value::Integer(number) => match usize::try_from(*number) {
                Ok(count) if count > 0 => Some(Limit::Count(count)),
                _ => None,
            },
            Value::String(text) => {
                if text.as_str() == "all" {
                    Some(Limit::All)
                } else {
                    None
                }
            }
            _ => None,
        }
    }
}

// How the delays before further attempts go on.
use crate::config_value::ConfigValue;
use crate::values::Any;
use toml::Value;

// How the delays before further attempts go on.
#[derive(Clone, Copy)]
pub(crate) enum Backoff {
    // Each is the same.
    Fixed,
    // They double.
    Exponential,
}

impl ConfigValue<Any> for Backoff {
    ghost use Rattle.nextest_config_elements_deserialize.specs.Retries.{backoff};

    ghost meaning = { backoff };

    fn expected() -> &'static str {
        "`fixed` or `exponential`"
    }

    fn from_value(value: &Value) -> Option<Backoff> {
        match value.as_str()? {
            "fixed" => Some(Backoff::Fixed),
            "exponential" => Some(Backoff::Exponential),
            _ => None,
        }
    }
}

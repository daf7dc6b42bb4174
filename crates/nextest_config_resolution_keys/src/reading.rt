// How the values of some keys are read.
ghost use Rattle.std.specs.Prelude.{[]};
ghost use Rattle.toml.specs.Data.{as_str};
ghost use Rattle.toml.specs.View.{view};
ghost use Rattle.nextest_config_elements_toml.specs.Paths.{GivesAt};
ghost use Rattle.nextest_config_elements_toml.specs.Reading.{leaf};

use nextest_config_elements_toml::{ValueError, refused};
use nextest_text::Text;
use std::alloc::Global;
use toml::Value;

/// A text that stands somewhere. An `Err` for everything else, with no path in front.
pub fn read_text(alloc: Global, value: &Value) -> Result<Text, ValueError>
    ensures { GivesAt [] result (leaf as_str (view value.now)) }
{
    match value {
        Value::String(text) => Ok(Text::from_str(alloc, text.as_str())?),
        _ => Err(refused(alloc, &[], Some(value), "a string")),
    }
}

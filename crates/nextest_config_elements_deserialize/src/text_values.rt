// Texts, and lists of them.
ghost use Rattle.std.specs.Prelude.{◌≡◌};
ghost use Rattle.toml.specs.Data.{as_str};
ghost use Rattle.toml.specs.View.{members_view, view};
ghost use Rattle.nextest_config_elements_toml.specs.Paths.{Gives};
ghost use Rattle.nextest_config_elements_toml.specs.Reading.{optional};
ghost use Rattle.nextest_config_elements_deserialize.specs.Keys.{texts_of};

use nextest_config_elements_toml::{TableMembers, ValueError, refused, refused_below, texts_in};
use nextest_text::{Listing, Text};
use std::alloc::Global;
use toml::Value;

/// The text under a key that may be left out. An `Err` where what stands is none, or where there
/// was no memory.
pub fn optional_text(
    alloc: Global,
    members: &mut TableMembers<'_>,
    path: &[&str],
    key: &str,
) -> Result<Option<Text>, ValueError>
    ensures read { Gives path.now result (optional key.now as_str (members_view members.old)) }
    ensures members { members_view members.new ≡ members_view members.old }
{
    match members.get(key) {
        None => Ok(None),
        Some(Value::String(text)) => Ok(Some(Text::from_str(alloc, text.as_str())?)),
        Some(other) => Err(refused_below(alloc, path, key, Some(other), "a string")),
    }
}

/// A list of texts. An `Err` at the first item that is none, or where the value is no list, or
/// where there was no memory.
pub fn deserialize_texts(
    alloc: Global,
    value: &Value,
    path: &[&str],
) -> Result<Listing<Text>, ValueError>
    ensures { Gives path.now result (texts_of (view value.now)) }
{
    match value {
        Value::Array(items) => texts_in(alloc, items.as_slice(), path),
        _ => Err(refused(alloc, path, Some(value), "an array of strings")),
    }
}

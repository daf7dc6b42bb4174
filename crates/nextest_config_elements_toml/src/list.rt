// What stands in a list.
ghost use Rattle.toml.specs.View.{items_view};
ghost use Rattle.nextest_config_elements_toml.specs.Paths.{Gives};
ghost use Rattle.nextest_config_elements_toml.specs.Reading.{texts_in};

use crate::refusing::refused_below;
use crate::value_error::ValueError;
use nextest_text::{Listing, Text};
use std::alloc::Global;
use toml::Value;

/// The items of the list at a path, each of which is a text. An `Err` at the first one that is
/// none, or where there was no memory.
pub fn texts_in(alloc: Global, items: &[Value], path: &[&str]) -> Result<Listing<Text>, ValueError>
    ensures { Gives path.now result (texts_in 0 (items_view items.now)) }
{
    let mut texts = Listing::new(alloc);
    for (place, item) in items.iter().enumerate() {
        let Value::String(text) = item else {
            let key = format!(in alloc; "{place}")?;
            return Err(refused_below(alloc, path, key.as_str(), Some(item), "a string"));
        };
        texts.push(Text::from_str(alloc, text.as_str())?)?;
    }
    Ok(texts)
}

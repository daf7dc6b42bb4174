// The items of a list.
ghost use Rattle.std.specs.Prelude.{decimal};
ghost use Rattle.toml.specs.View.{items_view, view};
ghost use Rattle.nextest_config_elements_toml.specs.Paths.{Gives};
ghost use Rattle.nextest_config_elements_toml.specs.Reading.{under};
ghost use Rattle.nextest_config_resolution_keys.specs.Items.{items_in};

use nextest_config_elements_deserialize::{DeserializeValue, below};
use nextest_config_elements_toml::ValueError;
use nextest_text::Listing;
use std::alloc::Global;
use toml::Value;

/// The items of a list at a path, each by the reader of its type. An `Err` has the path of the
/// first, by their places, that is none.
pub fn deserialize_items<T: DeserializeValue>(
    alloc: Global,
    items: &[Value],
    path: &[&str],
) -> Result<Listing<T>, ValueError>
    ensures { Gives path.now result (items_in T.reading 0 (items_view items.now)) }
{
    let mut found = Listing::new(alloc);
    for (place, item) in items.iter().enumerate() {
        let one = item_at(alloc, place, item, path)?;
        found.push(one)?;
    }
    Ok(found)
}

// The item at a place of the list at a path.
#[tactic(auto, using(nextest_config_elements_deserialize::proofs::Giving::gives_below))]
fn item_at<T: DeserializeValue>(
    alloc: Global,
    place: usize,
    value: &Value,
    path: &[&str],
) -> Result<T, ValueError>
    ensures { Gives path.now result (under (decimal place) (T.reading (view value.now))) }
{
    match T::deserialize(alloc, value, &[]) {
        Ok(found) => Ok(found),
        Err(error) => {
            let key = format!(in alloc; "{place}")?;
            Err(below(alloc, path, key.as_str(), error))
        }
    }
}

// The directory of the store.
ghost use Rattle.std.specs.Prelude.{[], ◌∷◌, codes, option_map};
ghost use Rattle.toml.specs.View.{view};
ghost use Rattle.nextest_config_elements_toml.specs.Paths.{GivesAt};
ghost use Rattle.nextest_config_resolution_keys.specs.File.{store_dir_of};

use nextest_config_elements_deserialize::optional_text;
use nextest_config_elements_toml::{TableMembers, ValueError, refused};
use nextest_text::Text;
use std::alloc::Global;
use toml::Value;

/// The directory of the store, by what stands under `store`: a table that may have a text `dir`;
/// `None` where the one or the other is left out. An `Err` for everything else; other keys are read
/// past.
pub fn deserialize_store_dir(
    alloc: Global,
    store: Option<&Value>,
) -> Result<Option<Text>, ValueError>
    ensures { GivesAt (codes "store" ∷ []) result
        (store_dir_of (option_map (λ it. view it.now) store.entry)) }
{
    match store {
        None => Ok(None),
        Some(Value::Table(table)) => {
            optional_text(alloc, &mut TableMembers::new(table), &["store"], "dir")
        }
        Some(other) => Err(refused(alloc, &["store"], Some(other), "a table")),
    }
}

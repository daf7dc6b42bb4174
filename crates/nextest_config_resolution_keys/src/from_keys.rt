// What is made of the values of a list of keys.
ghost use Rattle.toml.specs.View.{table_view};
ghost use Rattle.nextest_config_elements_deserialize.specs.Below.{IsBelow};
ghost use Rattle.nextest_config_elements_toml.specs.Paths.{Gives, texts};
ghost use Rattle.nextest_config_resolution_keys.specs.Rows.{made_of};

use crate::key_list::{DeserializeKeys, KeyList};
use nextest_config_elements_deserialize::below;
use nextest_config_elements_toml::ValueError;
use std::alloc::Global;
use toml::Table;

/// What is made of the values of a list of keys.
pub trait FromKeys<S: KeyList>: Drop {
    ghost use Rattle.std.specs.Prelude.{◌≡◌};

    ghost made: { S.Values → Self };

    /// What is made of these values.
    fn from_values(alloc: Global, values: S::Values) -> Self
        ensures { result ≡ made values };
}

/// What a table at a path is read as by a list of keys; other keys are read past. An `Err` has the
/// path of the first value, by the bytes of the keys, that may not stand there.
#[tactic(auto, using(crate::proofs::Made::gives_within))]
pub fn deserialize_table<S: DeserializeKeys, C: FromKeys<S>>(
    alloc: Global,
    table: &Table,
    path: &[&str],
) -> Result<C, ValueError>
    ensures { Gives path.now result (made_of C.made (S.reading (table_view table.now))) }
{
    match S::read(alloc, table) {
        Ok(values) => Ok(C::from_values(alloc, values)),
        Err(error) => Err(within(alloc, path, error)),
    }
}

// What was refused, told below a path.
fn within(alloc: Global, path: &[&str], error: ValueError) -> ValueError
    ensures { IsBelow (texts path.now) error result }
{
    match path.split_last() {
        None => error,
        Some((key, above)) => below(alloc, above, key, error),
    }
}

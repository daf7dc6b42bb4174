// What a key is.
ghost use Rattle.std.specs.Prelude.{[]};
ghost use Rattle.toml.specs.View.{table_view, view};
ghost use Rattle.nextest_config_elements_toml.specs.Paths.{GivesAt, texts};
ghost use Rattle.nextest_config_resolution_keys.specs.Keys.{value_in, value_of};

use nextest_config_elements_deserialize::below;
use nextest_config_elements_toml::{ValueError, member, refused};
use std::alloc::Global;
use toml::{Table, Value};

/// A key of the configuration: where it stands in its table, and how its value is read. No value of
/// the type is made.
pub trait ConfigKey {
    ghost use Rattle.std.specs.Prelude.{◌≡◌, []};
    ghost use Rattle.toml.specs.View.{view};
    ghost use Rattle.nextest_config_elements_toml.specs.Paths.{GivesAt, texts};
    ghost use Rattle.nextest_config_resolution_keys.specs.Keys.{Key};

    /// Its values.
    type Value: Drop;

    // Its path, and what a value there is read as.
    ghost key: { Key Self.Value };

    /// Where it stands in its table: the keys that lead to it, the outermost first.
    fn path() -> &'static [&'static str]
        ensures { texts result.now ≡ key.path };

    /// What a value that stands there is read as. An `Err` has the path from there on.
    fn read(alloc: Global, value: &Value) -> Result<Self::Value, ValueError>
        ensures { GivesAt [] result (key.reading (view value.now)) };
}

/// A key that has a value where nothing sets one.
pub trait HasFallback: ConfigKey {
    ghost use Rattle.std.specs.Prelude.{◌≡◌};

    ghost fallback: { Self.Value };

    /// That value.
    fn fallback() -> Self::Value
        ensures { result ≡ fallback };
}

/// The value of a key in a table, if one stands there. An `Err` where what stands there, or above
/// it, may not, or where there was no memory.
#[tactic(auto, using(nextest_config_elements_deserialize::proofs::Giving::gives_below))]
pub fn read_key<K: ConfigKey>(alloc: Global, table: &Table) -> Result<Option<K::Value>, ValueError>
    ensures { GivesAt [] result (value_of K.key (table_view table.now)) }
{
    let Some((key, rest)) = K::path().split_first() else {
        return Ok(None);
    };
    let Some(value) = member(table, key) else {
        return Ok(None);
    };
    match value_in::<K>(alloc, value, rest) {
        Ok(found) => Ok(found),
        Err(error) => Err(below(alloc, &[], key, error)),
    }
}

// The value at the rest of a key's path.
#[tactic(auto, using(nextest_config_elements_deserialize::proofs::Giving::gives_below))]
fn value_in<K: ConfigKey>(
    alloc: Global,
    value: &Value,
    path: &[&str],
) -> Result<Option<K::Value>, ValueError>
    ensures { GivesAt [] result (value_in (texts path.now) K.key.reading (view value.now)) }
{
    let Some((key, rest)) = path.split_first() else {
        return Ok(Some(K::read(alloc, value)?));
    };
    let Value::Table(table) = value else {
        return Err(refused(alloc, &[], Some(value), "a table"));
    };
    let Some(inner) = member(table, key) else {
        return Ok(None);
    };
    match value_in::<K>(alloc, inner, rest) {
        Ok(found) => Ok(found),
        Err(error) => Err(below(alloc, &[], key, error)),
    }
}

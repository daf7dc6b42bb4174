// What is known at a path of a table with some keys.
ghost use Rattle.std.specs.Prelude.{◌≡◌};
ghost use Rattle.nextest_config_elements_toml.specs.Paths.{texts};
ghost use Rattle.nextest_config_resolution_keys.specs.Rows.{known_by};

use crate::config_key::ConfigKey;
use crate::key_list::{Both, KeyList};

/// What is known at a path of a table.
#[derive(Clone, Copy, Debug, PartialEq, Eq)]
pub enum Known {
    /// The value of a key.
    Value,
    /// A table in which keys stand.
    Table,
}

/// A list of keys, for whoever looks for others.
pub trait KnownKeys: KeyList {
    ghost use Rattle.std.specs.Prelude.{◌≡◌};
    ghost use Rattle.nextest_config_elements_toml.specs.Paths.{texts};
    ghost use Rattle.nextest_config_resolution_keys.specs.Rows.{known};

    /// What is known at a path of a table with these keys: `None` where none of them stands, there
    /// or below.
    fn known(path: &[&str]) -> Option<Known>
        ensures { result ≡ known Self.rows (texts path.now) };
}

impl KnownKeys for () {
    fn known(_path: &[&str]) -> Option<Known> {
        None
    }
}

impl<K: ConfigKey, R: KnownKeys> KnownKeys for (K, R) {
    fn known(path: &[&str]) -> Option<Known> {
        match known_by(K::path(), path) {
            Some(found) => Some(found),
            None => R::known(path),
        }
    }
}

impl<A: KnownKeys, B: KnownKeys> KnownKeys for Both<A, B> {
    #[tactic(auto, using(crate::proofs::KnownBoth::known_both))]
    fn known(path: &[&str]) -> Option<Known> {
        match A::known(path) {
            Some(found) => Some(found),
            None => B::known(path),
        }
    }
}

// What stands at a path, by the path of one key.
fn known_by(way: &[&str], path: &[&str]) -> Option<Known>
    ensures { result ≡ known_by (texts way.now) (texts path.now) }
{
    match (way.split_first(), path.split_first()) {
        (None, None) => Some(Known::Value),
        (Some(_), None) => Some(Known::Table),
        (None, Some(_)) => None,
        (Some((first, more)), Some((key, rest))) => {
            if first == key {
                known_by(more, rest)
            } else {
                None
            }
        }
    }
}

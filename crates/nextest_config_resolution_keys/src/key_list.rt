// Lists of keys.
use crate::config_key::{ConfigKey, read_key};
use crate::joining::joined;
use nextest_config_elements_toml::ValueError;
use std::alloc::Global;
use std::marker::PhantomData;
use toml::Table;

/// A list of keys: `()`, or a key before others, or two lists. No value of the type is made.
pub trait KeyList {
    ghost use Rattle.std.specs.Prelude.{◌≡◌, List};
    ghost use Rattle.toml.specs.Data.{Members};
    ghost use Rattle.nextest_config_elements_toml.specs.Reading.{Reading};
    ghost use Rattle.nextest_config_resolution_keys.specs.Rows.{Row, refusal, refusal_of};

    /// The values of all of them, each `None` where its key is left out.
    type Values;

    // What a table is read as.
    ghost reading: { Members → Reading Self.Values };

    // The keys without their values.
    ghost rows: { List Row };

    // It is refused for what its keys refuse it for.
    ghost refuses: { (given : Members) → refusal_of (reading given) ≡ refusal rows given };
}

/// A list of keys by which tables are read.
pub trait DeserializeKeys: KeyList<Values: Drop> {
    ghost use Rattle.std.specs.Prelude.{[]};
    ghost use Rattle.toml.specs.View.{table_view};
    ghost use Rattle.nextest_config_elements_toml.specs.Paths.{GivesAt};

    /// What a table is read as; other keys are read past. An `Err` has the path of the first value,
    /// by the bytes of the keys, that may not stand there.
    fn read(alloc: Global, table: &Table) -> Result<Self::Values, ValueError>
        ensures { GivesAt [] result (Self.reading (table_view table.now)) };
}

impl KeyList for () {
    ghost use Rattle.std.specs.Prelude.{[], refl};
    ghost use Rattle.nextest_config_resolution_keys.specs.Rows.{nothing};

    type Values = ();

    ghost reading = { nothing };

    ghost rows = { [] };

    ghost refuses = { λ given. refl };
}

impl DeserializeKeys for () {
    fn read(_alloc: Global, _table: &Table) -> Result<(), ValueError> {
        Ok(())
    }
}

impl<K: ConfigKey, R: KeyList> KeyList for (K, R) {
    ghost use Rattle.std.specs.Prelude.{◌∷◌};
    ghost use Rattle.nextest_config_resolution_keys.specs.Keys.{value_of};
    ghost use Rattle.nextest_config_resolution_keys.specs.Listed.{refuses_both};
    ghost use Rattle.nextest_config_resolution_keys.specs.Rows.{both, row_of};

    type Values = (Option<K::Value>, R::Values);

    ghost reading = { both (value_of K.key) R.reading };

    ghost rows = { row_of K.key ∷ R.rows };

    ghost refuses = { refuses_both K.key R.reading R.rows R.refuses };
}

impl<K: ConfigKey, R: DeserializeKeys> DeserializeKeys for (K, R) {
    fn read(alloc: Global, table: &Table) -> Result<(Option<K::Value>, R::Values), ValueError> {
        joined(read_key::<K>(alloc, table), R::read(alloc, table))
    }
}

/// The keys of a list, and those of another.
pub struct Both<A, B> {
    first: PhantomData<A>,
    second: PhantomData<B>,
}

impl<A: KeyList, B: KeyList> KeyList for Both<A, B> {
    ghost use Rattle.std.specs.Prelude.{◌++◌};
    ghost use Rattle.nextest_config_resolution_keys.specs.Listed.{refuses_lists};
    ghost use Rattle.nextest_config_resolution_keys.specs.Rows.{both};

    type Values = (A::Values, B::Values);

    ghost reading = { both A.reading B.reading };

    ghost rows = { A.rows ++ B.rows };

    ghost refuses = { refuses_lists A.reading B.reading A.rows B.rows A.refuses B.refuses };
}

impl<A: DeserializeKeys, B: DeserializeKeys> DeserializeKeys for Both<A, B> {
    fn read(alloc: Global, table: &Table) -> Result<(A::Values, B::Values), ValueError> {
        joined(A::read(alloc, table), B::read(alloc, table))
    }
}

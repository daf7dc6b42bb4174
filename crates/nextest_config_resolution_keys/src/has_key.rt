// Which values are read together.
ghost use Rattle.std.specs.Prelude.{◌≡◌};
ghost use Rattle.std.specs.Option.{option_copied};

use crate::config_key::ConfigKey;

/// Values of keys, as a table has them.
pub trait KeyValues {
    ghost use Rattle.toml.specs.Data.{Members};
    ghost use Rattle.nextest_config_elements_toml.specs.Reading.{Reading};

    // What a table is read as.
    ghost reading: { Members → Reading Self };
}

/// Values of keys, that of this one among them.
pub trait HasKey<K: ConfigKey>: KeyValues {
    ghost use Rattle.std.specs.Prelude.{◌≡◌, Option, Ok};
    ghost use Rattle.std.specs.Option.{option_copied};
    ghost use Rattle.toml.specs.Data.{Members};
    ghost use Rattle.nextest_config_resolution_keys.specs.Keys.{value_of};

    ghost value: { Self → Option K.Value };

    /// The value of the key, lent; `None` where the key is left out.
    fn value(&self) -> Option<&K::Value>
        ensures { option_copied result ≡ value self.now };

    // It is what stands at the path of the key in the table that they are read of.
    ghost reads: { (given : Members) (it : Self) → Self.reading given ≡ Ok it
        → value_of K.key given ≡ Ok (value it) };
}

/// A key, by which the values are found that its own is among.
pub trait ListedKey: ConfigKey {
    /// These values.
    type Values: HasKey<Self>;
}

/// What a table is read as that has several values, among other things.
pub trait HasValues<V: KeyValues>: KeyValues {
    ghost use Rattle.std.specs.Prelude.{◌≡◌, Ok};
    ghost use Rattle.std.specs.Option.{option_copied};
    ghost use Rattle.toml.specs.Data.{Members};

    ghost values: { Self → V };

    /// The value of a key among them, lent; `None` where the key is left out.
    fn get<K: ConfigKey>(&self) -> Option<&K::Value>
    where
        V: HasKey<K>,
        ensures { option_copied result ≡ ⟦<V as HasKey<K>>⟧.value (values self.now) };

    // They are read of the same table.
    ghost reads: { (given : Members) (it : Self) → Self.reading given ≡ Ok it
        → V.reading given ≡ Ok (values it) };
}

/// The value that was read for a key, lent; `None` where the key is left out.
pub fn get_value<K: ListedKey, C: HasValues<K::Values>>(config: &C) -> Option<&K::Value>
    ensures { option_copied result ≡ K.Values.value (C.values config.now) }
{
    config.get::<K>()
}

// What tables have at each key.
ghost use Rattle.std.specs.Prelude.{◌≡◌, ◌++◌, ℕ, List, map, IfOk, OnOk, string_bytes};
ghost use Rattle.std.specs.List.{AllByRecursion};
ghost use Rattle.toml.specs.Data.{member, no_members};
ghost use Rattle.toml.specs.View.{view, table_view};
ghost use Rattle.nextest_config_resolution_tree.specs.Gathered.{KeysRise, given_at, member_at, values_at};

use std::alloc::{AllocError, Global};
use std::collections::BTreeMap;
use toml::{Table, Value};

// What tables have at one key, which is something.
#[derive(Drop)]
pub(crate) struct Layers {
    // what the highest of them has
    pub(crate) highest: Value,
    // what the others have, the highest first
    pub(crate) lower: Vec<Value>,
}

// What tables have at each key, the highest table first.
pub(crate) fn gathered(
    alloc: Global,
    tables: Vec<Table>,
) -> Result<BTreeMap<String, Layers>, AllocError>
    ensures gives { (key : List ℕ) → IfOk result
        (λ it. given_at key it.entries ≡ values_at key (map table_view tables.items)) }
    ensures rise { IfOk result (λ _. AllByRecursion KeysRise tables.items) }
{
    let mut members = BTreeMap::new(alloc);
    for table in tables {
        add_table(alloc, &mut members, table)?;
    }
    Ok(members)
}

// Adds what a lower table has at each key.
fn add_table(
    alloc: Global,
    members: &mut BTreeMap<String, Layers>,
    table: Table,
) -> Result<(), AllocError>
    ensures gives { (key : List ℕ) → OnOk result (given_at key members.new.entries
        ≡ given_at key members.old.entries ++ member_at key (table_view table)) }
    ensures rise { KeysRise table }
{
    for (key, value) in table {
        add_member(alloc, members, key, value)?;
    }
    Ok(())
}

// Adds what a lower table has at a key.
fn add_member(
    alloc: Global,
    members: &mut BTreeMap<String, Layers>,
    key: String,
    value: Value,
) -> Result<(), AllocError>
    ensures { (other : List ℕ) → OnOk result (given_at other members.new.entries
        ≡ given_at other members.old.entries
        ++ member_at other (member (string_bytes key) (view value) no_members)) }
{
    let Some(layers) = members.get_mut(&key) else {
        let layers = Layers {
            highest: value,
            lower: Vec::new(alloc),
        };
        members.insert(key, layers)?;
        return Ok(());
    };
    layers.lower.push(value)?;
    Ok(())
}

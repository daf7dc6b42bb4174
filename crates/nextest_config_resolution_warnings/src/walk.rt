// How a file is walked through.
ghost use Rattle.std.specs.Prelude.{◌≡◌, ◌++◌, [], ◌∷◌, IfOk};
ghost use Rattle.std.specs.Option.{option_map, option_map_or};
ghost use Rattle.toml.specs.View.{view, array_view, table_view};
ghost use Rattle.nextest_config_resolution_warnings.specs.Keys.{keys_of, place_seen};
ghost use Rattle.nextest_config_resolution_warnings.specs.Steps.{path_of, paths_below};
ghost use Rattle.nextest_config_resolution_warnings.specs.Unknown.{key_path, unknown_in, unknown_items, unknown_keys, unknown_members};

use crate::keys::{Keys, Place, items_at, keys_in, place_of};
use crate::kind::Kind;
use crate::step::{KeyStep, key_path};
use nextest_config_elements_toml::KeyPath;
use nextest_text::Listing;
use std::alloc::{AllocError, Global};
use toml::value::Array;
use toml::{Table, Value};

// Finds what may not stand in a value at a place.
#[cycle(walk)]
pub(crate) fn walk<'a>(
    alloc: Global,
    steps: &mut Vec<KeyStep<'a>>,
    found: &mut Listing<KeyPath>,
    place: Place<'a>,
    value: &'a Value,
) -> Result<(), AllocError>
    ensures found { IfOk result (λ _. found.new ≡ found.old
        ++ paths_below steps.old.items (unknown_in (place_seen place.entry) (view value.now))) }
    ensures steps { IfOk result (λ _. steps.new.items ≡ steps.old.items) }
{
    match value {
        Value::Table(table) => walk_table(alloc, steps, found, keys_in(place, table), table),
        Value::Array(items) => walk_items(alloc, steps, found, items_at(place), items),
        _ => Ok(()),
    }
}

// Finds what may not stand in a table.
#[cycle(walk)]
fn walk_table<'a>(
    alloc: Global,
    steps: &mut Vec<KeyStep<'a>>,
    found: &mut Listing<KeyPath>,
    keys: Keys<'a>,
    table: &'a Table,
) -> Result<(), AllocError>
    ensures found { IfOk result (λ _. found.new ≡ found.old ++ paths_below steps.old.items
        (unknown_members (keys_of keys.entry) (table_view table.now))) }
    ensures steps { IfOk result (λ _. steps.new.items ≡ steps.old.items) }
{
    'members: for (key, member) in table.iter() {
        steps.push(KeyStep::Key(key.as_str()))?;
        walk_member(alloc, steps, found, place_of(keys, key.as_str()), member)?;
        steps.pop();
    }
    Ok(())
}

// Finds what may not stand in a value whose key its table may have; without it that is the value
// itself.
#[cycle(walk)]
fn walk_member<'a>(
    alloc: Global,
    steps: &mut Vec<KeyStep<'a>>,
    found: &mut Listing<KeyPath>,
    place: Option<Place<'a>>,
    value: &'a Value,
) -> Result<(), AllocError>
    ensures found { IfOk result (λ _. found.new ≡ found.old ++ paths_below steps.old.items
        (option_map_or (λ it. unknown_in it (view value.now))
        (option_map place_seen place.entry) ([] ∷ []))) }
    ensures steps { IfOk result (λ _. steps.new.items ≡ steps.old.items) }
{
    match place {
        Some(place) => walk(alloc, steps, found, place, value),
        None => push_path(alloc, steps, found),
    }
}

// Finds what may not stand in a list.
#[cycle(walk)]
fn walk_items<'a>(
    alloc: Global,
    steps: &mut Vec<KeyStep<'a>>,
    found: &mut Listing<KeyPath>,
    place: Place<'a>,
    items: &'a Array,
) -> Result<(), AllocError>
    ensures found { IfOk result (λ _. found.new ≡ found.old ++ paths_below steps.old.items
        (unknown_items (place_seen place.entry) 0 (array_view items.now))) }
    ensures steps { IfOk result (λ _. steps.new.items ≡ steps.old.items) }
{
    'items: for (position, item) in items.iter().enumerate() {
        steps.push(KeyStep::Position(position))?;
        walk(alloc, steps, found, place, item)?;
        steps.pop();
    }
    Ok(())
}

// Adds the path of what was come to.
fn push_path(
    alloc: Global,
    steps: &[KeyStep<'_>],
    found: &mut Listing<KeyPath>,
) -> Result<(), AllocError>
    ensures { IfOk result (λ _. found.new ≡ found.old ++ key_path (path_of steps.now) ∷ []) }
{
    found.push(key_path(alloc, steps)?)?;
    Ok(())
}

// Finds what may not stand in a file.
pub(crate) fn walk_file(
    alloc: Global,
    found: &mut Listing<KeyPath>,
    file: &Table,
) -> Result<(), AllocError>
    ensures { IfOk result (λ _. found.new ≡ found.old ++ unknown_keys (table_view file.now)) }
{
    let mut steps = Vec::new(alloc);
    walk_table(
        alloc,
        &mut steps,
        found,
        keys_in(Place::Kind(Kind::Top), file),
        file,
    )
}

// Values at one path, each over the next ones.
ghost use Rattle.std.specs.Prelude.{◌≡◌, ◌++◌, ◌∷◌, [], map, reverse, IfOk, OnOk};
ghost use Rattle.toml.specs.View.{view, table_view};
ghost use Rattle.nextest_config_resolution_tree.specs.Ends.{AreSorted, IsSorted, along, ends, ends_of, members_ends};
ghost use Rattle.nextest_config_resolution_tree.specs.Gathered.{leading, members_of, merged_tables};
ghost use Rattle.nextest_config_resolution_tree.specs.Waiting.{AllSorted, ends_left, waiting_ends};

use crate::entry::Entry;
use crate::gathering::{Layers, gathered};
use crate::path::{SharedPath, TablePath};
use std::alloc::{AllocError, Global};
use std::collections::BTreeMap;
use toml::{Table, Value};

// What some tables have at one key, each over the next ones, and the path that leads there: it
// waits for its ends to be added.
#[derive(Drop)]
pub(crate) struct Waiting {
    pub(crate) path: SharedPath,
    pub(crate) layers: Layers,
}

// The ends of tables, each over the next ones. What they have at their keys waits on a list, of
// which the last is next, so it takes no stack however deep they nest. Ends are found from the last
// one on, and turned round in the end. No memory holds as many as there may be turns.
pub(crate) fn entries_of(alloc: Global, tables: Vec<Table>) -> Result<Vec<Entry>, AllocError>
    ensures ends { IfOk result
        (λ it. ends_of 0 it.items ≡ ends (merged_tables (map table_view tables.items))) }
    ensures sorted { OnOk result (IsSorted (merged_tables (map table_view tables.items))) }
{
    let mut entries = Vec::new(alloc);
    let mut waiting = Vec::new(alloc);
    let root = SharedPath::root(alloc)?;
    push_tables(alloc, &mut entries, &mut waiting, root, tables)?;
    for _ in 0..u64::MAX {
        match waiting.pop() {
            Some(next) => push_layers(alloc, &mut entries, &mut waiting, next)?,
            None => {
                entries.reverse();
                return Ok(entries);
            }
        }
    }
    Err(AllocError)
}

// Takes tables that stand at a path, each over the next ones: what they have at each key waits, and
// where they have none, an empty table is their end.
fn push_tables(
    alloc: Global,
    entries: &mut Vec<Entry>,
    waiting: &mut Vec<Waiting>,
    path: SharedPath,
    tables: Vec<Table>,
) -> Result<(), AllocError>
    ensures ends { OnOk result (ends_left waiting.new.items entries.new.items
        ≡ (waiting_ends waiting.old.items
        ++ map (along path) (ends (merged_tables (map table_view tables.items))))
        ++ reverse (ends_of 0 entries.old.items)) }
    ensures sorted { OnOk result (AllSorted waiting.new.items
        → AllSorted waiting.old.items × IsSorted (merged_tables (map table_view tables.items))) }
{
    let members = gathered(alloc, tables)?;
    if members.len() == 0 {
        return push_entry(entries, path, Value::Table(Table::new(alloc)));
    }
    let path = path.into_table(alloc)?;
    push_members(waiting, &path, members)
}

// What tables have at each key waits behind the others.
fn push_members(
    waiting: &mut Vec<Waiting>,
    path: &TablePath,
    members: BTreeMap<String, Layers>,
) -> Result<(), AllocError>
    ensures ends { OnOk result (waiting_ends waiting.new.items ≡ waiting_ends waiting.old.items
        ++ map (along path.now) (members_ends (members_of members.entries))) }
    ensures sorted { OnOk result (AllSorted waiting.new.items
        → AllSorted waiting.old.items × AreSorted (members_of members.entries)) }
{
    for (key, layers) in members {
        let path = path.child(key)?;
        waiting.push(Waiting { path, layers })?;
    }
    Ok(())
}

// Takes what waited behind all others: a leaf is an end, and of tables see `push_tables`.
fn push_layers(
    alloc: Global,
    entries: &mut Vec<Entry>,
    waiting: &mut Vec<Waiting>,
    next: Waiting,
) -> Result<(), AllocError>
    ensures ends { OnOk result (ends_left waiting.new.items entries.new.items
        ≡ ends_left (waiting.old.items ++ next ∷ []) entries.old.items) }
    ensures sorted { OnOk result
        (AllSorted waiting.new.items → AllSorted (waiting.old.items ++ next ∷ [])) }
{
    let Waiting { path, layers } = next;
    let Layers { highest, lower } = layers;
    match highest {
        Value::Table(table) => {
            let tables = with_shown(alloc, table, lower)?;
            push_tables(alloc, entries, waiting, path, tables)
        }
        leaf => push_entry(entries, path, leaf),
    }
}

// A table, and those of what is below it that show: all before the first leaf.
fn with_shown(alloc: Global, highest: Table, lower: Vec<Value>) -> Result<Vec<Table>, AllocError>
    ensures { IfOk result (λ it. map table_view it.items
        ≡ table_view highest ∷ leading (map view lower.items)) }
{
    let mut tables = Vec::new(alloc);
    tables.push(highest)?;
    for value in lower {
        let Value::Table(table) = value else {
            return Ok(tables);
        };
        tables.push(table)?;
    }
    Ok(tables)
}

// Adds an entry.
fn push_entry(entries: &mut Vec<Entry>, path: SharedPath, value: Value) -> Result<(), AllocError>
    ensures { OnOk result (ends_of 0 entries.new.items
        ≡ ends_of 0 entries.old.items ++ (path, view value) ∷ []) }
{
    entries.push(Entry { path, value })?;
    Ok(())
}

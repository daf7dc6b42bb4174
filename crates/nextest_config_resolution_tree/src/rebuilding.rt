// A value made from its run.
ghost use Rattle.std.specs.Prelude.{◌≡◌, Option, option_map, IfOk, OnOk};
ghost use Rattle.toml.specs.Data.{Data, Members};
ghost use Rattle.toml.specs.View.{view, table_view};
ghost use Rattle.nextest_config_resolution_tree.specs.Tree.{with_member};
ghost use Rattle.nextest_config_resolution_tree.specs.Ends.{AreSorted, IsSorted, SortedAt, ends, ends_at, members_ends};
ghost use Rattle.nextest_config_resolution_tree.specs.RunOf.{run_of};

use crate::run::Run;
use std::alloc::{AllocError, Global};
use toml::{Table, Value};

// What stands in a run, copied: a leaf, or the table of all that stands below.
#[cycle(value)]
pub(crate) fn value_in(alloc: Global, run: Run<'_>) -> Result<Option<Value>, AllocError>
    ensures { (found : Option Data) → SortedAt found → run_of run.entry ≡ ends_at found
        → IfOk result (λ it. option_map view it ≡ found) }
{
    if run.is_empty() {
        return Ok(None);
    }
    if let Some(leaf) = run.leaf() {
        return Ok(Some(leaf.clone()?));
    }
    Ok(Some(Value::Table(table_in(alloc, run)?)))
}

// The table of all that stands at the keys of a run.
#[cycle(value)]
fn table_in(alloc: Global, run: Run<'_>) -> Result<Table, AllocError>
    ensures { (members : Members) → AreSorted members → run_of run.entry ≡ members_ends members
        → IfOk result (λ it. table_view it ≡ members) }
{
    let mut table = Table::new(alloc);
    let mut left = run;
    while let Some((key, below, behind)) = left.split_key() {
        add_member(alloc, &mut table, key, below)?;
        left = behind;
    }
    Ok(table)
}

// Adds what stands in a run at a key of a table.
#[cycle(value)]
fn add_member(alloc: Global, table: &mut Table, key: &str, run: Run<'_>) -> Result<(), AllocError>
    ensures { (value : Data) → IsSorted value → run_of run.entry ≡ ends value
        → OnOk result (table_view table.new ≡ with_member key.now value (table_view table.old)) }
{
    if let Some(value) = value_in(alloc, run)? {
        table.insert(String::from_str(alloc, key)?, value)?;
    }
    Ok(())
}

// What files come to, each over the lower ones.
ghost use Rattle.std.specs.Prelude.{◌≡◌, codes, map, IfOk, option_map};
ghost use Rattle.toml.specs.Data.{get_member, member, no_members, table};
ghost use Rattle.toml.specs.View.{table_view, view};
ghost use Rattle.nextest_config_resolution_tree.specs.Ends.{IsListOf};
ghost use Rattle.nextest_config_resolution_tree.specs.RunOf.{list_of};
ghost use Rattle.nextest_config_resolution_tree.specs.Tree.{merge};
ghost use Rattle.nextest_config_resolution_load.specs.Checks.{as_setup, file_with_setup, members_of, tree_of_files};

use nextest_config_elements_toml::member;
use nextest_config_resolution_tree::MergedTree;
use std::alloc::{AllocError, Global};
use toml::{Table, Value};

// What files come to, each over the lower ones and over what is built in, the lowest first.
pub(crate) fn merged(
    alloc: Global,
    built_in: &Table,
    files: Vec<Table>,
) -> Result<MergedTree, AllocError>
    ensures { IfOk result (λ it. IsListOf (list_of it) (table (members_of
        (tree_of_files (table (table_view built_in.now)) (map table_view files.items))))) }
{
    let mut downward = files;
    downward.reverse();
    downward.push(copied(built_in)?)?;
    MergedTree::of_files(alloc, downward)
}

// A copy of a table.
fn copied(table: &Table) -> Result<Table, AllocError>
    ensures { IfOk result (λ it. table_view it ≡ table_view table.now) }
{
    table.clone()
}

// A file whose setup scripts stand where they stand now.
pub(crate) fn with_setup(alloc: Global, file: Table) -> Result<Table, AllocError>
    ensures { IfOk result (λ it. table_view it ≡ file_with_setup (table_view file)) }
{
    match moved_scripts(alloc, &file)? {
        None => Ok(file),
        Some(scripts) => over(alloc, scripts, file),
    }
}

// A table over another.
fn over(alloc: Global, higher: Table, lower: Table) -> Result<Table, AllocError>
    ensures { IfOk result (λ it. table_view it ≡ merge (table_view higher) (table_view lower)) }
{
    let mut tables = Vec::new(alloc);
    tables.push(higher)?;
    tables.push(lower)?;
    MergedTree::of_files(alloc, tables)?.to_table(alloc)
}

// What stands under `script` in a file, as it stands under `scripts.setup`.
fn moved_scripts(alloc: Global, file: &Table) -> Result<Option<Table>, AllocError>
    ensures { IfOk result (λ it. option_map table_view it
        ≡ option_map as_setup (get_member (codes "script") (table_view file.now))) }
{
    match member(file, "script") {
        None => Ok(None),
        Some(given) => Ok(Some(as_setup(alloc, given)?)),
    }
}

// The table that has a value under `scripts.setup` alone.
fn as_setup(alloc: Global, given: &Value) -> Result<Table, AllocError>
    ensures { IfOk result (λ it. table_view it ≡ as_setup (view given.now)) }
{
    let inner = only(alloc, "setup", given.clone()?)?;
    only(alloc, "scripts", Value::from(inner))
}

// The table that has one value alone.
fn only(alloc: Global, key: &str, value: Value) -> Result<Table, AllocError>
    ensures { IfOk result (λ it. table_view it ≡ member key.now (view value) no_members) }
{
    let mut table = Table::new(alloc);
    let key = String::from_str(alloc, key)?;
    table.insert(key, value)?;
    Ok(table)
}

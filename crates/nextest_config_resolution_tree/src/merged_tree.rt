// The merged tree.
ghost use Rattle.std.specs.Prelude.{◌≡◌, true, map, option_map};
ghost use Rattle.toml.specs.View.{table_view, view};
ghost use Rattle.nextest_config_resolution_tree.specs.Ends.{ends_of, rises};
ghost use Rattle.nextest_config_resolution_tree.specs.Tree.{members_at};

use crate::entry::Entry;
use crate::merging::entries_of;
use crate::run::Run;
use std::alloc::{AllocError, Global};
use toml::{Table, Value};

/// What stands at each path of some files, of which the higher ones hide what is below them: the
/// leaves and the empty tables, by their paths.
#[derive(Drop)]
pub struct MergedTree {
    pub(crate) entries: Vec<Entry>,
    // The paths rise, and none leads to another.
    pub ghost rises: { rises (ends_of 0 entries.items) ≡ true },
}

impl MergedTree {
    ghost use Rattle.std.specs.Prelude.{IfOk};
    ghost use Rattle.toml.specs.Data.{Data, Members, table};
    ghost use Rattle.nextest_config_elements_toml.specs.Paths.{texts};
    ghost use Rattle.nextest_config_resolution_tree.specs.Ends.{IsListOf};
    ghost use Rattle.nextest_config_resolution_tree.specs.Gathered.{merged_tables};
    ghost use Rattle.nextest_config_resolution_tree.specs.RunOf.{list_of, run_of};
    ghost use Rattle.nextest_config_resolution_tree.specs.Tree.{get_path};

    /// The merged tree of some files, the highest first; that of none is the empty table.
    ///
    /// # Errors
    ///
    /// It fails only on allocation.
    pub fn of_files(alloc: Global, files: Vec<Table>) -> Result<MergedTree, AllocError>
        ensures { IfOk result
            (λ it. IsListOf (list_of it) (merged_tables (map table_view files.items))) }
    {
        Ok(MergedTree {
            entries: entries_of(alloc, files)?,
        })
    }

    /// All of it, lent.
    pub fn run(&self) -> Run<'_>
        ensures { run_of result ≡ list_of self.now }
    {
        Run {
            entries: self.entries.as_slice(),
            depth: 0,
        }
    }

    /// What stands at a path, copied: a leaf, or the table of all that stands below.
    ///
    /// # Errors
    ///
    /// It fails only on allocation.
    pub fn value_at(&self, alloc: Global, path: &[&str]) -> Result<Option<Value>, AllocError>
        ensures { (tree : Data) → IsListOf (list_of self.now) tree
            → IfOk result (λ it. option_map view it ≡ get_path (texts path.now) tree) }
    {
        self.run().at(path).value(alloc)
    }

    /// All of it as a table, copied.
    ///
    /// # Errors
    ///
    /// It fails only on allocation.
    pub fn to_table(&self, alloc: Global) -> Result<Table, AllocError>
        ensures { (members : Members) → IsListOf (list_of self.now) (table members)
            → IfOk result (λ it. table_view it ≡ members) }
    {
        let all = self.run().value(alloc)?;
        Ok(table_at(alloc, all))
    }
}

// The table that stands somewhere, or an empty one.
fn table_at(alloc: Global, value: Option<Value>) -> Table
    ensures { table_view result ≡ members_at (option_map view value) }
{
    match value {
        Some(Value::Table(table)) => table,
        _ => Table::new(alloc),
    }
}

//! The merged tree of configuration files as one sorted list: what stands at each path of some
//! files, of which the higher ones hide the lower.
//!
//! A file is a tree of tables. The list has what the merged tree ends in, the leaves and the empty
//! tables, each with its path, a list of keys; the paths rise, key by key by their bytes, and none
//! leads to another. All files are merged at once: at each key, from the highest file down, tables
//! show until a leaf hides what is below it. The files' values move into the list.
#![tactic(auto)]

mod entry;
mod gathering;
pub mod laws;
mod merged_tree;
mod merging;
mod path;
mod rebuilding;
mod run;

pub use entry::Entry;
pub use merged_tree::MergedTree;
pub use path::SharedPath;
pub use run::Run;

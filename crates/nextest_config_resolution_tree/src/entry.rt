// What a tree ends in.
use crate::path::SharedPath;
use toml::Value;

/// A leaf or an empty table, and the path that leads to it.
#[derive(Drop)]
pub struct Entry {
    /// The keys that lead to it, the outermost first.
    pub path: SharedPath,
    /// What stands there.
    pub value: Value,
}

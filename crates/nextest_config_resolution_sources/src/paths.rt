// Where a configuration lies.
use nextest_text::Text;

/// Where a configuration lies.
#[derive(Clone, Debug, PartialEq, Eq)]
pub struct ConfigPaths {
    /// The root of the workspace, from which `CONFIG_PATH` leads to the file that is looked for.
    pub workspace_root: Text,
}

// One call drops it, whoever holds it.
impl Drop for ConfigPaths {
    fn drop(self) {
        let Self { workspace_root: _ } = self;
    }
}

// Where a source of the configuration comes from.
use crate::tool_name::ToolName;

/// Where a source of the configuration comes from.
#[derive(Clone, Debug, PartialEq, Eq)]
pub enum ConfigSourceKind {
    /// A tool brings it.
    Tool(ToolName),
    /// It is the repository's, and was named.
    ExplicitRepository,
    /// It is the repository's, and was looked for.
    DiscoveredRepository,
}

impl Drop for ConfigSourceKind {
    fn drop(self) {
        match self {
            ConfigSourceKind::Tool(_) => {}
            ConfigSourceKind::ExplicitRepository => {}
            ConfigSourceKind::DiscoveredRepository => {}
        }
    }
}

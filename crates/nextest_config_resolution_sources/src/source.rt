// The sources of a configuration.
ghost use Rattle.std.specs.Prelude.{◌≡◌, option_map};
ghost use Rattle.nextest_config_resolution_sources.specs.Kinds.{tool_of};

use nextest_config_elements_identifiers::{ConfigSourceKind, ToolName};
use nextest_text::Text;

/// What came of reading a source.
#[derive(Clone, Debug, PartialEq, Eq)]
pub enum ConfigSourceOutcome {
    /// Its text.
    Text(Text),
    /// There is none.
    NotFound,
    /// It could not be read, for this cause.
    Failed(Text),
}

impl Drop for ConfigSourceOutcome {
    fn drop(self) {
        match self {
            ConfigSourceOutcome::Text(_) => {}
            ConfigSourceOutcome::NotFound => {}
            ConfigSourceOutcome::Failed(_) => {}
        }
    }
}

/// A source of a configuration.
#[derive(Clone, Debug, PartialEq, Eq)]
pub struct ConfigSource {
    /// Where it comes from.
    pub kind: ConfigSourceKind,
    /// Its path, as reports name it.
    pub path: Text,
    /// What came of reading it.
    pub outcome: ConfigSourceOutcome,
}

impl Drop for ConfigSource {
    fn drop(self) {
        let Self {
            kind: _,
            path: _,
            outcome: _,
        } = self;
    }
}

impl ConfigSource {
    /// Where it comes from, lent.
    pub fn kind(&self) -> &ConfigSourceKind
        ensures { result.now ≡ self.now.kind }
    {
        &self.kind
    }

    /// Its path, lent.
    pub fn path(&self) -> &str
        ensures { result.now ≡ self.now.path }
    {
        self.path.as_str()
    }

    /// What came of reading it, lent.
    pub fn outcome(&self) -> &ConfigSourceOutcome
        ensures { result.now ≡ self.now.outcome }
    {
        &self.outcome
    }

    /// The tool that brings it, lent; `None` where it is the repository's.
    pub fn tool(&self) -> Option<&ToolName>
        ensures { option_map (λ it. it.now) result ≡ tool_of self.now.kind }
    {
        match &self.kind {
            ConfigSourceKind::Tool(name) => Some(name),
            ConfigSourceKind::ExplicitRepository | ConfigSourceKind::DiscoveredRepository => None,
        }
    }
}

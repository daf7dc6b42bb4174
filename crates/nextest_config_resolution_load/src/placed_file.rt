// What is read of sources.
use crate::loaded_config::ReadConfig;
use crate::loaded_rule::{LoadedOverride, LoadedScriptRule};
use nextest_text::Listing;
use toml::Table;

// The rules of a file.
#[derive(Drop)]
pub(crate) struct SourceRules<Filter, Spec> {
    pub(crate) overrides: Listing<LoadedOverride<Filter, Spec>>,
    pub(crate) scripts: Listing<LoadedScriptRule<Filter, Spec>>,
}

// What was read of sources: their files, with their setup scripts where they stand now, and the
// rules of each source.
#[derive(Drop)]
pub(crate) struct ReadFiles<Filter, Spec> {
    pub(crate) files: Vec<Table>,
    pub(crate) rules: Vec<SourceRules<Filter, Spec>>,
}

// What sources come to, before it is asked what their rules name and how profiles inherit.
#[derive(Drop)]
pub(crate) struct ReadSources<Filter, Spec> {
    pub(crate) config: ReadConfig,
    pub(crate) rules: Vec<SourceRules<Filter, Spec>>,
}

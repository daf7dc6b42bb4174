//! The load of a configuration: its files, one over the other, by rules that `load` tells in their
//! order.
//!
//! Each file, the lowest first, must have been read, must be TOML, must have only values that their
//! keys can have, may define groups and scripts of its own alone, and scripts only where their
//! features are known; each of its rules, overrides and script rules, must say on which platforms
//! or tests it holds, and its filters and platform specs must be some. Of what the files come to,
//! one over the other, each value must be one too, the groups and scripts that rules name must be
//! defined, the profiles must inherit as they may, and what a profile sets as its default filter
//! must be a filter.
#![tactic(auto)]

mod default_filters;
mod defined;
mod file_config;
mod file_reading;
mod files;
mod groups;
mod languages;
pub mod laws;
mod load_error;
mod load_fault;
mod loaded_config;
mod loaded_rule;
mod loading;
mod merging;
mod named;
mod named_scripts;
mod placed_file;
mod placed_rule;
mod placing;
mod profile_rules;
mod reading;
mod refusing;
mod rule_id;
mod rules;
mod warn;

pub use file_config::{FileConfig, ProfileRules};
pub use languages::{FilterPurpose, Languages};
pub use load_error::LoadError;
pub use load_fault::{LoadFault, LoadKind, PlatformSide};
pub use loaded_config::{LoadedConfig, NamedProfile};
pub use loaded_rule::{CompiledRule, LoadedOverride, LoadedRule, LoadedScriptRule};
pub use loading::{load, load_with_warnings};
pub use nextest_config_elements_versions::FeatureSet;
pub use nextest_config_resolution_warnings::ConfigWarnings;
pub use rule_id::RuleId;

//! A whole configuration: its profiles and their rules, and what the profile that is asked for
//! comes to.
#![tactic(auto)]

mod chain_rule;
mod chains;
mod config;
mod config_languages;
mod default_config;
mod early_profile;
mod enabled;
mod evaluatable_profile;
mod held;
mod held_rules;
pub mod laws;
mod memberships;
mod platforms;
mod profile_error;
mod rules;
mod selection;
mod store_dir;
mod tree;

pub use config::NextestConfig;
pub use config_languages::ConfigLanguages;
pub use default_config::DEFAULT_CONFIG;
pub use early_profile::EarlyProfile;
pub use enabled::{EnabledNames, EnabledScript, SetupScripts};
pub use evaluatable_profile::EvaluatableProfile;
pub use held_rules::HeldRules;
pub use memberships::PrecomputedGroupMembership;
pub use platforms::BuildPlatforms;
pub use profile_error::{ProfileError, ProfileNotFound};
pub use tree::built_in;

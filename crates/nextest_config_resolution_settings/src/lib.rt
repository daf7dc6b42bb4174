//! Which value a setting has: that of the nearest layer that sets it, else a fallback.
//!
//! A layer says by `Sets` which value it sets for a key: a rule, which is an override
//! (`PlacedOverride`), or a profile (`ProfileConfig`). `nearest` finds the first of a list that
//! sets one, and `find_setting` goes over two lists, rules and then profiles, and tells where the
//! value comes from. `settings_by` finds the settings of a test so, each over the overrides that
//! hold on it, in their order, and then the chain of its profile; and its wrapper script over the
//! script rules that hold on it. Which rules hold is asked elsewhere; of those that do, the nearest
//! that sets a value is the least of all rules that holds and sets one (`laws::least_rule`). What
//! profiles alone have is found by `set_by`, `of_profiles` and `value_or_fallback`.
#![tactic(auto)]

mod default_filter;
mod group_ref;
pub mod laws;
mod layers;
mod list_settings;
mod profiles;
mod rules;
mod source;
mod test_settings;
mod tracking;
mod wrappers;

pub use default_filter::{CompiledDefaultFilter, CompiledDefaultFilterSection};
pub use layers::{InProfile, Rule, Sets, find_in_profiles, find_setting, nearest};
pub use list_settings::ListSettings;
pub use nextest_config_resolution_overrides::{OverrideId, PlacedOverride};
pub use nextest_config_resolution_scripts::{
    ScriptCommand, ScriptCommandEnvMap, ScriptCommandRelativeTo, WrapperScriptConfig,
    WrapperScriptTargetRunner,
};
pub use profiles::{of_profiles, set_by, value_or_fallback};
pub use source::{SettingSource, TrackSource};
pub use test_settings::{TestGroupRef, TestSettings};
pub use tracking::{TestLayers, settings_by};
pub use wrappers::list_settings_by;

//! Setup scripts and wrapper scripts: what a configuration says of each, and which tests of a
//! profile need which.
//!
//! A reader is handed what stands at a key, and where it stands. It looks at the keys that it knows
//! by the order of their bytes, and reads past all others; the first value that is none is refused
//! with its path.
#![tactic(auto)]

pub mod laws;
mod rule_keys;
mod script_config;
mod script_rule;
mod setup_script;
mod wrapper_script;

pub use nextest_config_resolution_commands::{
    ScriptCommand, ScriptCommandEnvMap, ScriptCommandRelativeTo, ScriptId,
};
pub use rule_keys::{ListWrapperKey, RunWrapperKey, ScriptRuleKeys, SetupKey};
pub use script_config::{
    NamedScript, ProfileScriptType, ScriptConfig, ScriptInfo, ScriptType, deserialize_old_scripts,
    deserialize_scripts, script_named,
};
pub use script_rule::{PlacedScriptRule, ScriptRuleConfig, ScriptRuleId, ScriptRulesKey};
pub use setup_script::{SetupScriptConfig, SetupScriptJunitConfig, SetupScriptSlowTimeout};
pub use wrapper_script::{WrapperScriptConfig, WrapperScriptTargetRunner};

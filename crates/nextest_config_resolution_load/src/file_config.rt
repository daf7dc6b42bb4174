// What a file says, whatever stands in others.
use nextest_config_resolution_keys::{Both, FromKeys, KeyList, ProfileKeys};
use nextest_config_resolution_overrides::{NamedGroup, OverrideConfig, OverridesKey};
use nextest_config_resolution_scripts::{
    NamedScript, ScriptConfig, ScriptRuleConfig, ScriptRulesKey, SetupScriptConfig,
};
use nextest_text::{Listing, Text};
use std::alloc::Global;

/// The keys of a profile's table in a file: those of the profile, and its rules.
pub type ProfileTableKeys = Both<ProfileKeys, (OverridesKey, (ScriptRulesKey, ()))>;

/// The rules of a profile, as its table has them.
#[derive(Drop)]
pub struct TableRules {
    /// Its overrides, in their order.
    pub overrides: Listing<OverrideConfig>,
    /// Its script rules, in their order.
    pub scripts: Listing<ScriptRuleConfig>,
}

impl FromKeys<ProfileTableKeys> for TableRules {
    ghost use Rattle.nextest_config_resolution_load.specs.File.{rules_with};

    ghost made = { rules_with };

    fn from_values(alloc: Global, values: <ProfileTableKeys as KeyList>::Values) -> TableRules {
        let (_, (overrides, (scripts, ()))) = values;
        TableRules {
            overrides: overrides.unwrap_or(Listing::new(alloc)),
            scripts: scripts.unwrap_or(Listing::new(alloc)),
        }
    }
}

/// The rules of a profile in a file.
#[derive(Drop)]
pub struct ProfileRules {
    /// The name of the profile.
    pub profile: Text,
    /// Its overrides, in their order.
    pub overrides: Listing<OverrideConfig>,
    /// Its script rules, in their order.
    pub scripts: Listing<ScriptRuleConfig>,
}

/// What a file says that is kept by files: what else it says is read from what all files come to.
#[derive(Drop)]
pub struct FileConfig {
    /// The rules of its profiles, by the bytes of the profiles' names.
    pub profiles: Listing<ProfileRules>,
    /// The groups of tests that it defines.
    pub groups: Listing<NamedGroup>,
    /// The setup scripts that it defines under `script`, where they stood before `scripts.setup`.
    pub old_scripts: Listing<NamedScript<SetupScriptConfig>>,
    /// The scripts that it defines under `scripts`.
    pub scripts: ScriptConfig,
}

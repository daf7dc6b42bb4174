// The script rules of a profile.
ghost use Rattle.std.specs.Prelude.{◌≡◌};
ghost use Rattle.nextest_config_elements_deserialize.specs.Keys.{table_by};
ghost use Rattle.nextest_config_resolution_scripts.specs.Rules as keys;
ghost use Rattle.nextest_config_resolution_scripts.specs.Rules.{script_rule_in};

use crate::rule_keys::ScriptRuleKeys;
use nextest_config_elements_deserialize::DeserializeValue;
use nextest_config_elements_toml::{ValueError, refused};
use nextest_config_resolution_commands::ScriptId;
use nextest_config_resolution_keys::{
    ConfigKey, FromKeys, KeyList, deserialize_items, deserialize_table,
};
use nextest_config_resolution_overrides::OverridePlatforms;
use nextest_text::{Listing, Text};
use std::alloc::{AllocError, Global};
use std::fmt;
use toml::Value;

/// A script rule of a profile: the scripts that some of its tests need.
pub struct ScriptRuleConfig {
    /// `filter`: the filterset of the tests on which the rule holds; `None` where the key is left
    /// out.
    pub filter: Option<Text>,
    /// `list-wrapper`: the wrapper script that the command is handed to which lists the tests, if
    /// there is one.
    pub list_wrapper: Option<ScriptId>,
    /// `platform`: the platforms on which the rule holds; `None` where the key is left out.
    pub platform: Option<OverridePlatforms>,
    /// `run-wrapper`: the wrapper script that the commands of the tests are handed to, if there is
    /// one.
    pub run_wrapper: Option<ScriptId>,
    /// `setup`: the setup scripts that are run before the tests.
    pub setup: Listing<ScriptId>,
}

impl Clone for ScriptRuleConfig {
    ghost is_clone = { λ original copy. copy ≡ original };

    fn clone(&self) -> Result<ScriptRuleConfig, AllocError> {
        Ok(ScriptRuleConfig {
            filter: self.filter.clone()?,
            list_wrapper: self.list_wrapper.clone()?,
            platform: self.platform.clone()?,
            run_wrapper: self.run_wrapper.clone()?,
            setup: self.setup.clone()?,
        })
    }
}

// One call drops it, whoever holds it.
impl Drop for ScriptRuleConfig {
    fn drop(self) {
        let Self {
            filter: _,
            list_wrapper: _,
            platform: _,
            run_wrapper: _,
            setup: _,
        } = self;
    }
}

/// A script rule of a configuration, by where it is written.
#[derive(Clone, Debug, PartialEq, Eq)]
pub struct ScriptRuleId {
    /// The path of its file.
    pub file: Text,
    /// The name of its profile.
    pub profile: Text,
    /// Its place among the script rules of that profile in that file, from 0 on.
    pub index: usize,
}

// One call drops it, whoever holds it.
impl Drop for ScriptRuleId {
    fn drop(self) {
        let Self {
            file: _,
            profile: _,
            index: _,
        } = self;
    }
}

impl fmt::Display for ScriptRuleId {
    fn fmt<W: fmt::Write>(&self, f: &mut fmt::Formatter<W>) -> fmt::Result {
        write!(
            f,
            "{}: profile.{}.scripts.{}",
            self.file, self.profile, self.index
        )
    }
}

/// A script rule, and where it is written.
pub struct PlacedScriptRule {
    /// Where it is written.
    pub id: ScriptRuleId,
    /// What it says.
    pub config: ScriptRuleConfig,
}

// One call drops it, whoever holds it.
impl Drop for PlacedScriptRule {
    fn drop(self) {
        let Self { id: _, config: _ } = self;
    }
}

impl FromKeys<ScriptRuleKeys> for ScriptRuleConfig {
    ghost use Rattle.nextest_config_resolution_scripts.specs.Rules.{rule_with};

    ghost made = { rule_with };

    fn from_values(alloc: Global, values: <ScriptRuleKeys as KeyList>::Values) -> ScriptRuleConfig {
        let (filter, (list_wrapper, (platform, (run_wrapper, (setup, ()))))) = values;
        ScriptRuleConfig {
            filter,
            list_wrapper,
            platform,
            run_wrapper,
            setup: setup.unwrap_or(Listing::new(alloc)),
        }
    }
}

impl DeserializeValue for ScriptRuleConfig {
    ghost reading = { table_by script_rule_in };

    #[tactic(auto, unfolding(crate::specs::Rules::script_rule_in))]
    fn deserialize(
        alloc: Global,
        value: &Value,
        path: &[&str],
    ) -> Result<ScriptRuleConfig, ValueError> {
        match value {
            Value::Table(table) => {
                deserialize_table::<ScriptRuleKeys, ScriptRuleConfig>(alloc, table, path)
            }
            _ => Err(refused(alloc, path, Some(value), "a table")),
        }
    }
}

/// `scripts`: the script rules of a profile, in the order in which they are written.
pub struct ScriptRulesKey;

impl ConfigKey for ScriptRulesKey {
    type Value = Listing<ScriptRuleConfig>;

    ghost key = { keys.script_rules };

    fn path() -> &'static [&'static str] {
        &["scripts"]
    }

    fn read(alloc: Global, value: &Value) -> Result<Listing<ScriptRuleConfig>, ValueError> {
        match value {
            Value::Array(items) => deserialize_items(alloc, items.as_slice(), &[]),
            _ => Err(refused(alloc, &[], Some(value), "an array of tables")),
        }
    }
}

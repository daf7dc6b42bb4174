// The keys of a script rule.
ghost use Rattle.std.specs.Prelude.{[]};
ghost use Rattle.toml.specs.View.{view};
ghost use Rattle.nextest_config_elements_toml.specs.Paths.{GivesAt};
ghost use Rattle.nextest_config_resolution_scripts.specs.Rules as keys;
ghost use Rattle.nextest_config_resolution_scripts.specs.Rules.{one_name};

use nextest_config_elements_deserialize::DeserializeValue;
use nextest_config_elements_toml::ValueError;
use nextest_config_resolution_commands::ScriptId;
use nextest_config_resolution_keys::{ConfigKey, deserialize_items};
use nextest_config_resolution_overrides::{FilterKey, PlatformKey};
use nextest_text::Listing;
use std::alloc::Global;
use toml::Value;

/// `list-wrapper`: the wrapper script that the command is handed to which lists the tests.
pub struct ListWrapperKey;

impl ConfigKey for ListWrapperKey {
    type Value = ScriptId;

    ghost key = { keys.list_wrapper };

    fn path() -> &'static [&'static str] {
        &["list-wrapper"]
    }

    fn read(alloc: Global, value: &Value) -> Result<ScriptId, ValueError> {
        ScriptId::deserialize(alloc, value, &[])
    }
}

/// `run-wrapper`: the wrapper script that the commands of the tests are handed to.
pub struct RunWrapperKey;

impl ConfigKey for RunWrapperKey {
    type Value = ScriptId;

    ghost key = { keys.run_wrapper };

    fn path() -> &'static [&'static str] {
        &["run-wrapper"]
    }

    fn read(alloc: Global, value: &Value) -> Result<ScriptId, ValueError> {
        ScriptId::deserialize(alloc, value, &[])
    }
}

/// `setup`: the setup scripts that are run before the tests: the name of one, or a list of names.
pub struct SetupKey;

impl ConfigKey for SetupKey {
    type Value = Listing<ScriptId>;

    ghost key = { keys.setup };

    fn path() -> &'static [&'static str] {
        &["setup"]
    }

    fn read(alloc: Global, value: &Value) -> Result<Listing<ScriptId>, ValueError> {
        match value {
            Value::Array(items) => deserialize_items(alloc, items.as_slice(), &[]),
            _ => one_name(alloc, value),
        }
    }
}

// The name of one script.
fn one_name(alloc: Global, value: &Value) -> Result<Listing<ScriptId>, ValueError>
    ensures { GivesAt [] result (one_name (view value.now)) }
{
    let id = ScriptId::deserialize(alloc, value, &[])?;
    let mut names = Listing::new(alloc);
    names.push(id)?;
    Ok(names)
}

/// The keys of a script rule.
pub type ScriptRuleKeys = (
    FilterKey,
    (
        ListWrapperKey,
        (PlatformKey, (RunWrapperKey, (SetupKey, ()))),
    ),
);

// The keys that tell which tests are run, and with which arguments.
ghost use Rattle.nextest_config_resolution_keys.specs.Command as keys;

use crate::config_key::ConfigKey;
use crate::from_keys::FromKeys;
use crate::has_key::{HasKey, KeyValues, ListedKey};
use crate::key_list::KeyList;
use crate::reading::read_text;
use nextest_config_elements_deserialize::deserialize_texts;
use nextest_config_elements_toml::ValueError;
use nextest_text::{Listing, Text};
use std::alloc::Global;
use toml::Value;

/// `default-filter`: the filterset of the tests that are run where none is asked for.
pub struct DefaultFilterKey;

impl ConfigKey for DefaultFilterKey {
    type Value = Text;

    ghost key = { keys.default_filter };

    fn path() -> &'static [&'static str] {
        &["default-filter"]
    }

    fn read(alloc: Global, value: &Value) -> Result<Text, ValueError> {
        read_text(alloc, value)
    }
}

impl HasKey<DefaultFilterKey> for CommandValues {
    ghost use Rattle.nextest_config_resolution_keys.specs.Command.{command_read};

    ghost value = { λ it. it.default_filter };

    ghost reads = { λ given it is. (command_read given it is).default_filter };

    fn value(&self) -> Option<&Text> {
        self.default_filter.as_ref()
    }
}

impl ListedKey for DefaultFilterKey {
    type Values = CommandValues;
}

/// `run-extra-args`: the arguments that tests are run with besides. Where nothing sets it: none.
pub struct RunExtraArgsKey;

impl ConfigKey for RunExtraArgsKey {
    type Value = Listing<Text>;

    ghost key = { keys.run_extra_args };

    fn path() -> &'static [&'static str] {
        &["run-extra-args"]
    }

    fn read(alloc: Global, value: &Value) -> Result<Listing<Text>, ValueError> {
        deserialize_texts(alloc, value, &[])
    }
}

impl HasKey<RunExtraArgsKey> for CommandValues {
    ghost use Rattle.nextest_config_resolution_keys.specs.Command.{command_read};

    ghost value = { λ it. it.run_extra_args };

    ghost reads = { λ given it is. (command_read given it is).run_extra_args };

    fn value(&self) -> Option<&Listing<Text>> {
        self.run_extra_args.as_ref()
    }
}

impl ListedKey for RunExtraArgsKey {
    type Values = CommandValues;
}

/// The keys that tell which tests are run, and with which arguments. Profiles and overrides
/// have them.
pub type CommandKeys = (DefaultFilterKey, (RunExtraArgsKey, ()));

/// The values of these keys, as a table has them. Each is `None` where its key is left out.
pub struct CommandValues {
    /// `default-filter`: the filterset of the tests that are run where none is asked for.
    pub default_filter: Option<Text>,
    /// `run-extra-args`: the arguments that tests are run with besides.
    pub run_extra_args: Option<Listing<Text>>,
}

// One call drops it, whoever holds it.
impl Drop for CommandValues {
    fn drop(self) {
        let Self {
            default_filter: _,
            run_extra_args: _,
        } = self;
    }
}

impl KeyValues for CommandValues {
    ghost use Rattle.nextest_config_resolution_keys.specs.Command.{command_in};

    ghost reading = { command_in };
}

impl FromKeys<CommandKeys> for CommandValues {
    ghost use Rattle.nextest_config_resolution_keys.specs.Command.{command_values};

    ghost made = { command_values };

    fn from_values(_alloc: Global, values: <CommandKeys as KeyList>::Values) -> CommandValues {
        let (default_filter, (run_extra_args, ())) = values;
        CommandValues {
            default_filter,
            run_extra_args,
        }
    }
}

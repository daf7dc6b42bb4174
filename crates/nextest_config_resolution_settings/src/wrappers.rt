// The wrapper scripts that script rules set.
ghost use Rattle.std.specs.Prelude.{◌≡◌};
ghost use Rattle.std.specs.Option.{option_copied};
ghost use Rattle.nextest_config_resolution_settings.specs.Nearest.{lent_layers};
ghost use Rattle.nextest_config_resolution_settings.specs.Wrappers as words;

use crate::layers::{InProfile, Sets, nearest};
use crate::list_settings::ListSettings;
use crate::source::{SettingSource, TrackSource};
use nextest_config_resolution_keys::ConfigKey;
use nextest_config_resolution_scripts::{
    ListWrapperKey, NamedScript, PlacedScriptRule, RunWrapperKey, ScriptId, WrapperScriptConfig,
    script_named,
};

impl InProfile for PlacedScriptRule {
    ghost use Rattle.nextest_config_resolution_settings.specs.Rules.{script_profile_of};

    ghost profile_of = { script_profile_of };

    fn profile(&self) -> &str {
        self.id.profile.as_str()
    }
}

impl Sets<RunWrapperKey> for PlacedScriptRule {
    ghost use Rattle.nextest_config_resolution_settings.specs.Wrappers.{run_wrapper};

    ghost value = { run_wrapper };

    fn value(&self) -> Option<&ScriptId> {
        self.config.run_wrapper.as_ref()
    }
}

impl Sets<ListWrapperKey> for PlacedScriptRule {
    ghost use Rattle.nextest_config_resolution_settings.specs.Wrappers.{list_wrapper};

    ghost value = { list_wrapper };

    fn value(&self) -> Option<&ScriptId> {
        self.config.list_wrapper.as_ref()
    }
}

// The wrapper script that the nearest of some script rules names which names one, and what is kept
// of where it is taken from.
pub(crate) fn wrapper_by<'c, K: ConfigKey<Value = ScriptId>, T: TrackSource<'c>>(
    rules: &[&'c PlacedScriptRule],
    wrappers: &'c [NamedScript<WrapperScriptConfig>],
) -> (Option<&'c WrapperScriptConfig>, T)
where
    PlacedScriptRule: Sets<K>,
    ensures { words.IsTrackedWrapper T.tells wrappers.now ⟦<PlacedScriptRule as Sets<K>>⟧.value
        (lent_layers rules.now) (option_copied result.0, result.1) }
{
    match nearest::<K, PlacedScriptRule>(rules) {
        Some((place, id)) => {
            let found = script_named(wrappers, id);
            (found, T::track(SettingSource::Script(&rules[place].id)))
        }
        None => (None, T::track(SettingSource::Default)),
    }
}

/// The settings with which the tests of a binary are listed on which these script rules hold, in
/// their order: the wrapper script is the one that the nearest of them names that names one, and
/// none where none does.
pub fn list_settings_by<'c>(
    rules: &[&'c PlacedScriptRule],
    wrappers: &'c [NamedScript<WrapperScriptConfig>],
) -> ListSettings<'c>
    ensures { words.SetsWrapper wrappers.now words.list_wrapper (lent_layers rules.now)
        (option_copied result.list_wrapper.0) }
{
    ListSettings {
        list_wrapper: wrapper_by::<ListWrapperKey, ()>(rules, wrappers),
    }
}

// What a configuration comes to.
use crate::loaded_rule::{LoadedOverride, LoadedScriptRule};
use nextest_config_resolution_inheritance::Inherits;
use nextest_config_resolution_keys::{InheritsKey, ProfileConfig, get_value};
use nextest_config_resolution_overrides::NamedGroup;
use nextest_config_resolution_scripts::ScriptConfig;
use nextest_text::{Listing, Text};

/// A profile by its name.
pub struct NamedProfile {
    /// Its name.
    pub name: Text,
    /// What it sets itself.
    pub config: ProfileConfig,
}

// One call drops it, whoever holds it.
impl Drop for NamedProfile {
    fn drop(self) {
        let Self { name: _, config: _ } = self;
    }
}

impl Inherits for NamedProfile {
    ghost use Rattle.nextest_config_resolution_keys.specs.File.{inherits_in};

    ghost name_of = { λ it. it.name };

    ghost parent_of = { λ it. inherits_in it.config };

    fn name(&self) -> &str {
        self.name.as_str()
    }

    fn inherits(&self) -> Option<&str> {
        match get_value::<InheritsKey, _>(&self.config) {
            Some(parent) => Some(parent.as_str()),
            None => None,
        }
    }
}

/// What the files of a configuration come to, each over the lower ones.
pub struct LoadedConfig<Filter, Spec> {
    /// The profiles, by the bytes of their names.
    pub profiles: Listing<NamedProfile>,
    /// The default filter of each profile as it was read, where it sets one, in the order of
    /// `profiles`.
    pub default_filters: Listing<Option<Filter>>,
    /// The overrides of all files: the highest file first, in a file by the bytes of the profiles'
    /// names, and those of a profile in their order.
    pub rules: Listing<LoadedOverride<Filter, Spec>>,
    /// The script rules of all files, in the same order.
    pub script_rules: Listing<LoadedScriptRule<Filter, Spec>>,
    /// The groups of tests, by the bytes of their keys. Of several with one name the last holds.
    pub groups: Listing<NamedGroup>,
    /// The scripts that are defined.
    pub scripts: ScriptConfig,
    /// The directory of the store, if one is set.
    pub store_dir: Option<Text>,
}

// One call drops it, whoever holds it.
impl<Filter: Drop, Spec: Drop> Drop for LoadedConfig<Filter, Spec> {
    fn drop(self) {
        let Self {
            profiles: _,
            default_filters: _,
            rules: _,
            script_rules: _,
            groups: _,
            scripts: _,
            store_dir: _,
        } = self;
    }
}

// What the files of a configuration come to, before its default filters are read and its rules are
// looked at.
#[derive(Drop)]
pub(crate) struct ReadConfig {
    pub(crate) profiles: Listing<NamedProfile>,
    pub(crate) groups: Listing<NamedGroup>,
    pub(crate) scripts: ScriptConfig,
    pub(crate) store_dir: Option<Text>,
}

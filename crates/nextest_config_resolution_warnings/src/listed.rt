// Tables whose keys are in lists.
ghost use Rattle.std.specs.Prelude.{◌≡◌, ◌∷◌, []};
ghost use Rattle.nextest_config_elements_toml.specs.Paths.{texts};
ghost use Rattle.nextest_config_resolution_keys.specs.Rows.{known};
ghost use Rattle.nextest_config_resolution_warnings.specs.Listed as lists;

use nextest_config_elements_toml::ValueError;
use nextest_config_resolution_keys::{Both, ConfigKey, Known, KnownKeys, ProfileKeys};
use nextest_config_resolution_overrides::{OverrideKeys, OverridesKey, PlatformKeys};
use nextest_config_resolution_scripts::{ScriptRuleKeys, ScriptRulesKey};
use std::alloc::Global;
use toml::Value;

/// A table whose keys are in a list.
#[derive(Clone, Copy, Debug, PartialEq, Eq)]
pub enum Listed {
    /// A profile.
    Profile,
    /// What is set for some tests of a profile.
    Override,
    /// Scripts that some tests of a profile need.
    ScriptRule,
    /// The platforms that something holds for.
    Platforms,
}

// `archive`: what a profile says of archives. It isn't looked into.
struct ArchiveKey;

impl ConfigKey for ArchiveKey {
    ghost use Rattle.nextest_config_resolution_warnings.specs.Listed.{archive};

    type Value = ();

    ghost key = { archive };

    fn path() -> &'static [&'static str] {
        &["archive"]
    }

    fn read(_alloc: Global, _value: &Value) -> Result<(), ValueError> {
        Ok(())
    }
}

// The keys that the table of a profile may have.
type ProfileTableKeys = Both<ProfileKeys, (ArchiveKey, (OverridesKey, (ScriptRulesKey, ())))>;

// What is known at a path of such a table.
pub(crate) fn known_in(list: Listed, path: &[&str]) -> Option<Known>
    ensures { result ≡ known (lists.rows_of list) (texts path.now) }
{
    match list {
        Listed::Profile => <ProfileTableKeys as KnownKeys>::known(path),
        Listed::Override => <OverrideKeys as KnownKeys>::known(path),
        Listed::ScriptRule => <ScriptRuleKeys as KnownKeys>::known(path),
        Listed::Platforms => <PlatformKeys as KnownKeys>::known(path),
    }
}

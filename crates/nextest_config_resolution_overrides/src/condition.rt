// The keys that tell on which platforms and tests a rule holds.
ghost use Rattle.nextest_config_resolution_overrides.specs.Condition as keys;

use crate::platforms::{OverridePlatforms, platforms_of};
use crate::rule::RuleValues;
use nextest_config_elements_toml::ValueError;
use nextest_config_resolution_keys::{ConfigKey, HasKey, ListedKey, read_text};
use nextest_text::Text;
use std::alloc::Global;
use toml::Value;

/// `filter`: the filterset of the tests on which a rule holds.
pub struct FilterKey;

impl ConfigKey for FilterKey {
    type Value = Text;

    ghost key = { keys.filter };

    fn path() -> &'static [&'static str] {
        &["filter"]
    }

    fn read(alloc: Global, value: &Value) -> Result<Text, ValueError> {
        read_text(alloc, value)
    }
}

impl HasKey<FilterKey> for RuleValues {
    ghost use Rattle.nextest_config_resolution_overrides.specs.RuleKeys.{rule_read};

    ghost value = { λ it. it.filter };

    ghost reads = { λ given it is. (rule_read given it is).filter };

    fn value(&self) -> Option<&Text> {
        self.filter.as_ref()
    }
}

impl ListedKey for FilterKey {
    type Values = RuleValues;
}

/// `platform`: the platforms on which a rule holds.
pub struct PlatformKey;

impl ConfigKey for PlatformKey {
    type Value = OverridePlatforms;

    ghost key = { keys.platform };

    fn path() -> &'static [&'static str] {
        &["platform"]
    }

    fn read(alloc: Global, value: &Value) -> Result<OverridePlatforms, ValueError> {
        platforms_of(alloc, value)
    }
}

impl HasKey<PlatformKey> for RuleValues {
    ghost use Rattle.nextest_config_resolution_overrides.specs.RuleKeys.{rule_read};

    ghost value = { λ it. it.platform };

    ghost reads = { λ given it is. (rule_read given it is).platform };

    fn value(&self) -> Option<&OverridePlatforms> {
        self.platform.as_ref()
    }
}

impl ListedKey for PlatformKey {
    type Values = RuleValues;
}

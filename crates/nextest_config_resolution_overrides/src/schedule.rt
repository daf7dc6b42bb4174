// The keys of an override that tell in which order and group a test runs.
ghost use Rattle.nextest_config_resolution_overrides.specs.Schedule as keys;

use crate::rule::RuleValues;
use nextest_config_elements_deserialize::{deserialize_test_group, deserialize_test_priority};
use nextest_config_elements_identifiers::TestGroup;
use nextest_config_elements_toml::ValueError;
use nextest_config_elements_values::TestPriority;
use nextest_config_resolution_keys::{ConfigKey, HasFallback, HasKey, ListedKey};
use std::alloc::Global;
use toml::Value;

/// `priority`: before which tests a test runs. Where nothing sets it: 0, behind tests of a greater
/// one and ahead of tests of a smaller one.
pub struct PriorityKey;

impl ConfigKey for PriorityKey {
    type Value = TestPriority;

    ghost key = { keys.priority };

    fn path() -> &'static [&'static str] {
        &["priority"]
    }

    fn read(alloc: Global, value: &Value) -> Result<TestPriority, ValueError> {
        deserialize_test_priority(alloc, value, &[])
    }
}

impl HasFallback for PriorityKey {
    ghost fallback = { keys.priority_fallback };

    fn fallback() -> TestPriority {
        TestPriority::default()
    }
}

impl HasKey<PriorityKey> for RuleValues {
    ghost use Rattle.nextest_config_resolution_overrides.specs.RuleKeys.{rule_read};

    ghost value = { λ it. it.priority };

    ghost reads = { λ given it is. (rule_read given it is).priority };

    fn value(&self) -> Option<&TestPriority> {
        self.priority.as_ref()
    }
}

impl ListedKey for PriorityKey {
    type Values = RuleValues;
}

/// `test-group`: the group of a test. Where nothing sets it: the global one.
pub struct TestGroupKey;

impl ConfigKey for TestGroupKey {
    type Value = TestGroup;

    ghost key = { keys.test_group };

    fn path() -> &'static [&'static str] {
        &["test-group"]
    }

    fn read(alloc: Global, value: &Value) -> Result<TestGroup, ValueError> {
        deserialize_test_group(alloc, value, &[])
    }
}

impl HasKey<TestGroupKey> for RuleValues {
    ghost use Rattle.nextest_config_resolution_overrides.specs.RuleKeys.{rule_read};

    ghost value = { λ it. it.test_group };

    ghost reads = { λ given it is. (rule_read given it is).test_group };

    fn value(&self) -> Option<&TestGroup> {
        self.test_group.as_ref()
    }
}

impl ListedKey for TestGroupKey {
    type Values = RuleValues;
}

// The keys that overrides alone have.
use crate::condition::{FilterKey, PlatformKey};
use crate::platforms::OverridePlatforms;
use crate::schedule::{PriorityKey, TestGroupKey};
use nextest_config_elements_identifiers::TestGroup;
use nextest_config_elements_values::TestPriority;
use nextest_config_resolution_keys::{FromKeys, KeyList, KeyValues};
use nextest_text::Text;
use std::alloc::Global;

/// The keys that overrides alone have: on which platforms and tests an override holds, and in which
/// order and group these tests run.
pub type RuleKeys = (FilterKey, (PlatformKey, (PriorityKey, (TestGroupKey, ()))));

/// The values of these keys, as a table has them. Each is `None` where its key is left out.
pub struct RuleValues {
    /// `filter`: the filterset of the tests on which an override holds.
    pub filter: Option<Text>,
    /// `platform`: the platforms on which it holds.
    pub platform: Option<OverridePlatforms>,
    /// `priority`: before which tests these run.
    pub priority: Option<TestPriority>,
    /// `test-group`: the group of these tests.
    pub test_group: Option<TestGroup>,
}

// One call drops it, whoever holds it.
impl Drop for RuleValues {
    fn drop(self) {
        let Self {
            filter: _,
            platform: _,
            priority: _,
            test_group: _,
        } = self;
    }
}

impl KeyValues for RuleValues {
    ghost use Rattle.nextest_config_resolution_overrides.specs.RuleKeys.{rule_in};

    ghost reading = { rule_in };
}

impl FromKeys<RuleKeys> for RuleValues {
    ghost use Rattle.nextest_config_resolution_overrides.specs.RuleKeys.{rule_values};

    ghost made = { rule_values };

    fn from_values(_alloc: Global, values: <RuleKeys as KeyList>::Values) -> RuleValues {
        let (filter, (platform, (priority, (test_group, ())))) = values;
        RuleValues {
            filter,
            platform,
            priority,
            test_group,
        }
    }
}

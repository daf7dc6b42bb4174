// What an override says.
ghost use Rattle.nextest_config_elements_deserialize.specs.Keys.{table_by};
ghost use Rattle.nextest_config_resolution_overrides.specs.Overrides.{override_in};

use crate::rule::{RuleKeys, RuleValues};
use nextest_config_elements_deserialize::DeserializeValue;
use nextest_config_elements_toml::{ValueError, refused};
use nextest_config_resolution_keys::{
    Both, CommandKeys, CommandValues, ConfigKey, FromKeys, HasKey, HasValues, KeyList, KeyValues,
    ReportKeys, ReportValues, TestKeys, TestValues, deserialize_table,
};
use std::alloc::Global;
use toml::Value;

/// The keys of an override, by what they tell of.
pub type OverrideKeys = Both<Both<RuleKeys, CommandKeys>, Both<TestKeys, ReportKeys>>;

/// The values of an override's keys, as its table has them. Each is `None` where its key is left
/// out.
pub struct OverrideConfig {
    /// On which platforms and tests it holds, and in which order and group these run.
    pub rule: RuleValues,
    /// Which tests are run, and with which arguments.
    pub command: CommandValues,
    /// How a test is run.
    pub test: TestValues,
    /// How a test is shown and reported.
    pub report: ReportValues,
}

// One call drops it, whoever holds it.
impl Drop for OverrideConfig {
    fn drop(self) {
        let Self {
            rule: _,
            command: _,
            test: _,
            report: _,
        } = self;
    }
}

impl KeyValues for OverrideConfig {
    ghost use Rattle.nextest_config_resolution_overrides.specs.Overrides.{override_in};

    ghost reading = { override_in };
}

impl HasValues<RuleValues> for OverrideConfig {
    ghost use Rattle.nextest_config_resolution_overrides.specs.Overrides.{override_read};

    ghost values = { λ it. it.rule };

    ghost reads = { λ given it is. (override_read given it is).rule };

    fn get<K: ConfigKey>(&self) -> Option<&K::Value>
    where
        RuleValues: HasKey<K>,
    {
        <RuleValues as HasKey<K>>::value(&self.rule)
    }
}

impl HasValues<CommandValues> for OverrideConfig {
    ghost use Rattle.nextest_config_resolution_overrides.specs.Overrides.{override_read};

    ghost values = { λ it. it.command };

    ghost reads = { λ given it is. (override_read given it is).command };

    fn get<K: ConfigKey>(&self) -> Option<&K::Value>
    where
        CommandValues: HasKey<K>,
    {
        <CommandValues as HasKey<K>>::value(&self.command)
    }
}

impl HasValues<TestValues> for OverrideConfig {
    ghost use Rattle.nextest_config_resolution_overrides.specs.Overrides.{override_read};

    ghost values = { λ it. it.test };

    ghost reads = { λ given it is. (override_read given it is).test };

    fn get<K: ConfigKey>(&self) -> Option<&K::Value>
    where
        TestValues: HasKey<K>,
    {
        <TestValues as HasKey<K>>::value(&self.test)
    }
}

impl HasValues<ReportValues> for OverrideConfig {
    ghost use Rattle.nextest_config_resolution_overrides.specs.Overrides.{override_read};

    ghost values = { λ it. it.report };

    ghost reads = { λ given it is. (override_read given it is).report };

    fn get<K: ConfigKey>(&self) -> Option<&K::Value>
    where
        ReportValues: HasKey<K>,
    {
        <ReportValues as HasKey<K>>::value(&self.report)
    }
}

impl FromKeys<OverrideKeys> for OverrideConfig {
    ghost use Rattle.nextest_config_resolution_overrides.specs.Overrides.{override_values};

    ghost made = { override_values };

    fn from_values(alloc: Global, values: <OverrideKeys as KeyList>::Values) -> OverrideConfig {
        let ((rule, command), (test, report)) = values;
        OverrideConfig {
            rule: RuleValues::from_values(alloc, rule),
            command: CommandValues::from_values(alloc, command),
            test: TestValues::from_values(alloc, test),
            report: ReportValues::from_values(alloc, report),
        }
    }
}

impl DeserializeValue for OverrideConfig {
    ghost reading = { table_by override_in };

    #[tactic(auto, unfolding(crate::specs::Overrides::override_in))]
    fn deserialize(
        alloc: Global,
        value: &Value,
        path: &[&str],
    ) -> Result<OverrideConfig, ValueError> {
        match value {
            Value::Table(table) => {
                deserialize_table::<OverrideKeys, OverrideConfig>(alloc, table, path)
            }
            _ => Err(refused(alloc, path, Some(value), "a table")),
        }
    }
}

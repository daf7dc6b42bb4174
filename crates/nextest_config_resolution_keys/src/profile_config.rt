// What the table of a profile says.
ghost use Rattle.toml.specs.View.{table_view, view};
ghost use Rattle.nextest_config_elements_deserialize.specs.Paths.{profile_path};
ghost use Rattle.nextest_config_elements_toml.specs.Paths.{GivesAt};
ghost use Rattle.nextest_config_resolution_keys.specs.Profile.{profile_in, profile_of};

use crate::command::{CommandKeys, CommandValues};
use crate::config_key::ConfigKey;
use crate::from_keys::{FromKeys, deserialize_table};
use crate::has_key::{HasKey, HasValues, KeyValues};
use crate::key_list::{Both, KeyList};
use crate::own::{OwnKeys, OwnValues};
use crate::report::{ReportKeys, ReportValues};
use crate::test::{TestKeys, TestValues};
use nextest_config_elements_toml::{ValueError, refused};
use std::alloc::Global;
use toml::{Table, Value};

/// The keys of a profile, by what they tell of.
pub type ProfileKeys = Both<Both<OwnKeys, CommandKeys>, Both<TestKeys, ReportKeys>>;

/// The values of a profile's keys, as its table has them. Each is `None` where its key is left out.
pub struct ProfileConfig {
    /// What profiles alone say.
    pub own: OwnValues,
    /// Which tests are run, and with which arguments.
    pub command: CommandValues,
    /// How each test is run.
    pub test: TestValues,
    /// How each test is shown and reported.
    pub report: ReportValues,
}

// One call drops it, whoever holds it.
impl Drop for ProfileConfig {
    fn drop(self) {
        let Self {
            own: _,
            command: _,
            test: _,
            report: _,
        } = self;
    }
}

impl KeyValues for ProfileConfig {
    ghost use Rattle.nextest_config_resolution_keys.specs.Profile.{profile_in};

    ghost reading = { profile_in };
}

impl HasValues<OwnValues> for ProfileConfig {
    ghost use Rattle.nextest_config_resolution_keys.specs.Profile.{profile_read};

    ghost values = { λ it. it.own };

    ghost reads = { λ given it is. (profile_read given it is).own };

    fn get<K: ConfigKey>(&self) -> Option<&K::Value>
    where
        OwnValues: HasKey<K>,
    {
        <OwnValues as HasKey<K>>::value(&self.own)
    }
}

impl HasValues<CommandValues> for ProfileConfig {
    ghost use Rattle.nextest_config_resolution_keys.specs.Profile.{profile_read};

    ghost values = { λ it. it.command };

    ghost reads = { λ given it is. (profile_read given it is).command };

    fn get<K: ConfigKey>(&self) -> Option<&K::Value>
    where
        CommandValues: HasKey<K>,
    {
        <CommandValues as HasKey<K>>::value(&self.command)
    }
}

impl HasValues<TestValues> for ProfileConfig {
    ghost use Rattle.nextest_config_resolution_keys.specs.Profile.{profile_read};

    ghost values = { λ it. it.test };

    ghost reads = { λ given it is. (profile_read given it is).test };

    fn get<K: ConfigKey>(&self) -> Option<&K::Value>
    where
        TestValues: HasKey<K>,
    {
        <TestValues as HasKey<K>>::value(&self.test)
    }
}

impl HasValues<ReportValues> for ProfileConfig {
    ghost use Rattle.nextest_config_resolution_keys.specs.Profile.{profile_read};

    ghost values = { λ it. it.report };

    ghost reads = { λ given it is. (profile_read given it is).report };

    fn get<K: ConfigKey>(&self) -> Option<&K::Value>
    where
        ReportValues: HasKey<K>,
    {
        <ReportValues as HasKey<K>>::value(&self.report)
    }
}

impl FromKeys<ProfileKeys> for ProfileConfig {
    ghost use Rattle.nextest_config_resolution_keys.specs.Profile.{profile_values};

    ghost made = { profile_values };

    fn from_values(alloc: Global, values: <ProfileKeys as KeyList>::Values) -> ProfileConfig {
        let ((own, command), (test, report)) = values;
        ProfileConfig {
            own: OwnValues::from_values(alloc, own),
            command: CommandValues::from_values(alloc, command),
            test: TestValues::from_values(alloc, test),
            report: ReportValues::from_values(alloc, report),
        }
    }
}

/// What the table of a profile says, which stands at `profile` and its name. Every key may be left
/// out, and other keys are read past. An `Err` has the path of the first value, by the bytes of the
/// keys, that may not stand there.
#[tactic(auto, unfolding(crate::specs::Profile::profile_in))]
pub fn deserialize_profile(
    alloc: Global,
    name: &str,
    table: &Table,
) -> Result<ProfileConfig, ValueError>
    ensures { GivesAt (profile_path name.now) result (profile_in (table_view table.now)) }
{
    deserialize_table::<ProfileKeys, ProfileConfig>(alloc, table, &["profile", name])
}

/// What stands under the name of a profile: a table, which is read as `deserialize_profile` does.
/// An `Err` for everything else.
pub fn deserialize_profile_value(
    alloc: Global,
    name: &str,
    value: &Value,
) -> Result<ProfileConfig, ValueError>
    ensures { GivesAt (profile_path name.now) result (profile_of (view value.now)) }
{
    match value {
        Value::Table(table) => deserialize_profile(alloc, name, table),
        _ => Err(refused(alloc, &["profile", name], Some(value), "a table")),
    }
}

// How a file is read, key by key.
ghost use Rattle.std.specs.Prelude.{[], ◌∷◌, codes};
ghost use Rattle.toml.specs.View.{table_view, view};
ghost use Rattle.nextest_config_elements_toml.specs.Paths.{Gives, GivesAt};
ghost use Rattle.nextest_config_elements_deserialize.specs.Keys.{table_by};
ghost use Rattle.nextest_config_elements_deserialize.specs.Paths.{profile_path};
ghost use Rattle.nextest_config_elements_versions.specs.Demand as demand;
ghost use Rattle.nextest_config_resolution_load.specs.File.{check_of, file_in, profiles_at_file, profiles_in_file, rules_in_profile, rules_of_profile};
ghost use Rattle.nextest_config_resolution_overrides.specs.Groups.{groups_at};
ghost use Rattle.nextest_config_resolution_scripts.specs.Scripts.{old_scripts_at, scripts_at};
ghost use Rattle.nextest_config_resolution_keys.specs.File.{store_dir_at};

use crate::file_config::{FileConfig, ProfileRules, ProfileTableKeys, TableRules};
use nextest_config_elements_toml::{ValueError, member, refused};
use nextest_config_elements_versions::{deserialize_experimental, deserialize_nextest_version};
use nextest_config_resolution_keys::{deserialize_store_dir, deserialize_table};
use nextest_config_resolution_overrides::{NamedGroup, deserialize_test_groups};
use nextest_config_resolution_scripts::{
    NamedScript, ScriptConfig, SetupScriptConfig, deserialize_old_scripts, deserialize_scripts,
};
use nextest_text::{Listing, Text};
use std::alloc::Global;
use toml::{Table, Value};

// What a file says, of which each value must be one that its key may have; other keys are read
// past. An `Err` names the first value, by the bytes of the keys, that is none.
#[tactic(auto, unfolding(crate::specs::File::file_in))]
pub(crate) fn read_file(alloc: Global, table: &Table) -> Result<FileConfig, ValueError>
    ensures { Gives [] result (file_in (table_view table.now)) }
{
    check_experimental(alloc, table)?;
    check_nextest_version(alloc, table)?;
    let profiles = read_profiles(alloc, table)?;
    let old_scripts = read_old_scripts(alloc, table)?;
    let scripts = read_scripts(alloc, table)?;
    check_store(alloc, table)?;
    let groups = read_groups(alloc, table)?;
    Ok(FileConfig {
        profiles,
        groups,
        old_scripts,
        scripts,
    })
}

// The features that a file asks for.
fn check_experimental(alloc: Global, table: &Table) -> Result<(), ValueError>
    ensures { Gives [] result (check_of (demand.experimental_in (table_view table.now))) }
{
    if let Some(given) = member(table, "experimental") {
        deserialize_experimental(alloc, given, &["experimental"])?;
    }
    Ok(())
}

// The versions that a file asks for.
fn check_nextest_version(alloc: Global, table: &Table) -> Result<(), ValueError>
    ensures { Gives [] result (check_of (demand.nextest_version_in (table_view table.now))) }
{
    if let Some(given) = member(table, "nextest-version") {
        deserialize_nextest_version(alloc, given, &["nextest-version"])?;
    }
    Ok(())
}

// What stands under `store`.
fn check_store(alloc: Global, table: &Table) -> Result<(), ValueError>
    ensures { Gives [] result (check_of (store_dir_at (table_view table.now))) }
{
    deserialize_store_dir(alloc, member(table, "store"))?;
    Ok(())
}

// The groups that a file defines.
fn read_groups(alloc: Global, table: &Table) -> Result<Listing<NamedGroup>, ValueError>
    ensures { Gives [] result (groups_at (table_view table.now)) }
{
    deserialize_test_groups(alloc, member(table, "test-groups"))
}

// The setup scripts that a file defines under `script`.
fn read_old_scripts(
    alloc: Global,
    table: &Table,
) -> Result<Listing<NamedScript<SetupScriptConfig>>, ValueError>
    ensures { Gives [] result (old_scripts_at (table_view table.now)) }
{
    deserialize_old_scripts(alloc, member(table, "script"))
}

// The scripts that a file defines under `scripts`.
fn read_scripts(alloc: Global, table: &Table) -> Result<ScriptConfig, ValueError>
    ensures { Gives [] result (scripts_at (table_view table.now)) }
{
    deserialize_scripts(alloc, member(table, "scripts"))
}

// What stands under `profile`.
fn read_profiles(alloc: Global, table: &Table) -> Result<Listing<ProfileRules>, ValueError>
    ensures { Gives [] result (profiles_at_file (table_view table.now)) }
{
    match member(table, "profile") {
        None => Ok(Listing::new(alloc)),
        Some(Value::Table(profiles)) => read_each(alloc, profiles),
        Some(other) => Err(refused(alloc, &["profile"], Some(other), "a table")),
    }
}

// Each profile of a table.
fn read_each(alloc: Global, profiles: &Table) -> Result<Listing<ProfileRules>, ValueError>
    ensures { GivesAt (codes "profile" ∷ []) result (profiles_in_file (table_view profiles.now)) }
{
    let mut found = Listing::new(alloc);
    for (name, given) in profiles {
        let one = read_profile(alloc, name.as_str(), given)?;
        found.push(one)?;
    }
    Ok(found)
}

// The rules of the profile of a name.
fn read_profile(alloc: Global, name: &str, given: &Value) -> Result<ProfileRules, ValueError>
    ensures { GivesAt (profile_path name.now) result (rules_of_profile name.now (view given.now)) }
{
    let rules = read_rules(alloc, name, given)?;
    Ok(ProfileRules {
        profile: Text::from_str(alloc, name)?,
        overrides: rules.overrides,
        scripts: rules.scripts,
    })
}

// What stands under the name of a profile: a table.
#[tactic(auto, unfolding(crate::specs::File::rules_in_profile))]
fn read_rules(alloc: Global, name: &str, given: &Value) -> Result<TableRules, ValueError>
    ensures { GivesAt (profile_path name.now) result (table_by rules_in_profile (view given.now)) }
{
    let path = ["profile", name];
    match given {
        Value::Table(table) => {
            deserialize_table::<ProfileTableKeys, TableRules>(alloc, table, &path)
        }
        _ => Err(refused(alloc, &path, Some(given), "a table")),
    }
}

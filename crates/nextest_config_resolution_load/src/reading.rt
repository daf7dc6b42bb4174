// What a merged tree says.
ghost use Rattle.std.specs.Prelude.{◌≡◌, codes, map, IfOk, option_map};
ghost use Rattle.toml.specs.Data.{Members, get_member, table};
ghost use Rattle.toml.specs.View.{table_view, view};
ghost use Rattle.nextest_config_elements_toml.specs.Reading.{under};
ghost use Rattle.nextest_config_resolution_inheritance.specs.Inheritance.{Rise};
ghost use Rattle.nextest_config_resolution_overrides.specs.Groups.{groups_at};
ghost use Rattle.nextest_config_resolution_scripts.specs.Scripts.{scripts_at};
ghost use Rattle.nextest_config_resolution_tree.specs.Ends.{IsListOf};
ghost use Rattle.nextest_config_resolution_tree.specs.RunOf.{list_of};
ghost use Rattle.nextest_config_resolution_keys.specs.File.{profiles_at, profiles_in, profiles_of, store_dir_at};
ghost use Rattle.nextest_config_resolution_load.specs.Checks.{config_in, parents_of};
ghost use Rattle.nextest_config_resolution_load.specs.Load.{named_of};
ghost use Rattle.nextest_config_resolution_load.specs.Reading.{GivesSeen, profile_at, values_of};

use crate::loaded_config::{NamedProfile, ReadConfig};
use nextest_config_elements_toml::{ValueError, refused};
use nextest_config_resolution_keys::{deserialize_profile_value, deserialize_store_dir};
use nextest_config_resolution_overrides::{NamedGroup, deserialize_test_groups};
use nextest_config_resolution_scripts::{ScriptConfig, deserialize_scripts};
use nextest_config_resolution_tree::MergedTree;
use nextest_text::{Listing, Text};
use std::alloc::{AllocError, Global};
use toml::{Table, Value};

// What a tree says of profiles, scripts, the store and groups.
pub(crate) fn read_config(alloc: Global, tree: &MergedTree) -> Result<ReadConfig, ValueError>
    ensures read { (top : Members) → IsListOf (list_of tree.now) (table top)
        → GivesSeen values_of result (config_in top) }
    ensures rises { IfOk result (λ it. Rise (parents_of (values_of it).profiles)) }
{
    let profiles = read_profiles(alloc, tree)?;
    let scripts = read_scripts(alloc, tree)?;
    let store_dir = read_store_dir(alloc, tree)?;
    let groups = read_groups(alloc, tree)?;
    Ok(ReadConfig {
        profiles,
        groups,
        scripts,
        store_dir,
    })
}

// What stands at a key of a tree.
fn at_key(alloc: Global, tree: &MergedTree, key: &str) -> Result<Option<Value>, AllocError>
    ensures { (top : Members) → IsListOf (list_of tree.now) (table top)
        → IfOk result (λ it. option_map view it ≡ get_member key.now top) }
{
    tree.value_at(alloc, &[key])
}

// The scripts.
fn read_scripts(alloc: Global, tree: &MergedTree) -> Result<ScriptConfig, ValueError>
    ensures { (top : Members) → IsListOf (list_of tree.now) (table top)
        → GivesSeen (λ it. it) result (scripts_at top) }
{
    let given = at_key(alloc, tree, "scripts")?;
    deserialize_scripts(alloc, given.as_ref())
}

// The groups of tests.
fn read_groups(alloc: Global, tree: &MergedTree) -> Result<Listing<NamedGroup>, ValueError>
    ensures { (top : Members) → IsListOf (list_of tree.now) (table top)
        → GivesSeen (λ it. it) result (groups_at top) }
{
    let given = at_key(alloc, tree, "test-groups")?;
    deserialize_test_groups(alloc, given.as_ref())
}

// The directory of the store.
fn read_store_dir(alloc: Global, tree: &MergedTree) -> Result<Option<Text>, ValueError>
    ensures { (top : Members) → IsListOf (list_of tree.now) (table top)
        → GivesSeen (λ it. it) result (store_dir_at top) }
{
    let given = at_key(alloc, tree, "store")?;
    deserialize_store_dir(alloc, given.as_ref())
}

// The profiles, by the bytes of their names.
fn read_profiles(alloc: Global, tree: &MergedTree) -> Result<Listing<NamedProfile>, ValueError>
    ensures read { (top : Members) → IsListOf (list_of tree.now) (table top)
        → GivesSeen (map named_of) result (profiles_at top) }
    ensures rises { IfOk result (λ it. Rise (parents_of (map named_of it))) }
{
    let given = at_key(alloc, tree, "profile")?;
    read_under(alloc, given)
}

// Those of what stands under `profile`.
fn read_under(alloc: Global, given: Option<Value>) -> Result<Listing<NamedProfile>, ValueError>
    ensures read { GivesSeen (map named_of) result
        (under (codes "profile") (profiles_of (option_map view given))) }
    ensures rises { IfOk result (λ it. Rise (parents_of (map named_of it))) }
{
    match given {
        None => Ok(Listing::new(alloc)),
        Some(Value::Table(profiles)) => read_each(alloc, &profiles),
        Some(other) => Err(refused(alloc, &["profile"], Some(&other), "a table")),
    }
}

// The profiles of a table.
fn read_each(alloc: Global, profiles: &Table) -> Result<Listing<NamedProfile>, ValueError>
    ensures read { GivesSeen (map named_of) result
        (under (codes "profile") (profiles_in (table_view profiles.now))) }
    ensures rises { IfOk result (λ it. Rise (parents_of (map named_of it))) }
{
    let mut found = Vec::with_capacity(alloc, profiles.len())?;
    for (name, given) in profiles {
        let profile = named_profile(alloc, name.as_str(), given)?;
        found.push(profile)?;
    }
    Ok(Listing::from(found))
}

// The profile of a name, by what stands there.
fn named_profile(alloc: Global, name: &str, value: &Value) -> Result<NamedProfile, ValueError>
    ensures { GivesSeen named_of result (profile_at name.now (view value.now)) }
{
    let config = deserialize_profile_value(alloc, name, value)?;
    Ok(NamedProfile {
        name: Text::from_str(alloc, name)?,
        config,
    })
}

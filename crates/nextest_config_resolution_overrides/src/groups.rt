// The groups of tests that a configuration defines.
ghost use Rattle.std.specs.Prelude.{◌≡◌, IfOk, option_map};
ghost use Rattle.toml.specs.View.{table_view, view};
ghost use Rattle.nextest_config_elements_identifiers.specs.Config.{identifier};
ghost use Rattle.nextest_config_resolution_overrides.specs.Groups.{group_of, group_path, groups_in, groups_of, groups_path, name_of_identifier};
ghost use Rattle.nextest_config_elements_toml.specs.Paths.{GivesAt};

use nextest_config_elements_deserialize::deserialize_test_group_config;
use nextest_config_elements_identifiers::{CustomTestGroup, InvalidIdentifier};
use nextest_config_elements_toml::{BadValue, KeyPath, ValueError, refused};
use nextest_config_elements_values::TestGroupConfig;
use nextest_text::Listing;
use std::alloc::{AllocError, Global};
use toml::{Table, Value};

/// A group of tests, as a configuration defines it.
pub struct NamedGroup {
    /// Its name.
    pub name: CustomTestGroup,
    /// What it is set to.
    pub config: TestGroupConfig,
}

// One call drops it, whoever holds it.
impl Drop for NamedGroup {
    fn drop(self) {
        let Self { name: _, config: _ } = self;
    }
}

/// The groups that a configuration defines, in the order of their keys, by what stands under
/// `test-groups` at its top: a table, or nothing. Each key of it is the name of a group, an
/// identifier, and its value a table with `max-threads`; other keys of that are read past. An `Err`
/// names the first key or value, by the order of the keys, that is none, and a key before its
/// value.
pub fn deserialize_test_groups(
    alloc: Global,
    found: Option<&Value>,
) -> Result<Listing<NamedGroup>, ValueError>
    ensures { GivesAt groups_path result (groups_of (option_map (λ it. view it.now) found.entry)) }
{
    match found {
        None => Ok(Listing::new(alloc)),
        Some(Value::Table(table)) => groups_in(alloc, table),
        Some(other) => Err(refused(alloc, &["test-groups"], Some(other), "a table")),
    }
}

// Each key of a table is a group.
fn groups_in(alloc: Global, table: &Table) -> Result<Listing<NamedGroup>, ValueError>
    ensures { GivesAt groups_path result (groups_in (table_view table.now)) }
{
    let mut groups = Listing::new(alloc);
    for (key, given) in table {
        let group = group_of(alloc, key.as_str(), given)?;
        groups.push(group)?;
    }
    Ok(groups)
}

// The group of a key, with what stands there.
fn group_of(alloc: Global, key: &str, given: &Value) -> Result<NamedGroup, ValueError>
    ensures { GivesAt (group_path key.now) result (group_of key.now (view given.now)) }
{
    let name = name_of(alloc, key)?;
    let config = deserialize_test_group_config(alloc, given, &["test-groups", key])?;
    Ok(NamedGroup { name, config })
}

// The name that a key is.
fn name_of(alloc: Global, key: &str) -> Result<CustomTestGroup, ValueError>
    ensures { GivesAt (group_path key.now) result (name_of_identifier (identifier key.now)) }
{
    match CustomTestGroup::from_text(alloc, key) {
        Ok(name) => Ok(name),
        Err(InvalidIdentifier::OutOfMemory) => Err(ValueError::OutOfMemory),
        Err(_) => Err(ValueError::Refused(bad_name(alloc, key)?)),
    }
}

// A key that is no name, told as it is written.
fn bad_name(alloc: Global, key: &str) -> Result<BadValue, AllocError>
    ensures { IfOk result (λ bad. bad.path.keys ≡ group_path key.now) }
{
    let path = KeyPath::of_keys(alloc, &["test-groups", key], &[])?;
    BadValue::of_key(alloc, path, key, "the name of a test group, an identifier")
}

// The scripts that a file defines, and the rules of its profiles that name none.
ghost use Rattle.std.specs.Prelude.{◌≡◌};
ghost use Rattle.toml.specs.View.{items_view, table_view, view};
ghost use Rattle.nextest_config_resolution_warnings.specs.Scripts as scripts;

use nextest_config_elements_toml::member;
use toml::{Table, Value};

// Whether a file defines scripts in the table that held them before.
pub(crate) fn defines_old_scripts(file: &Table) -> bool
    ensures { result ≡ scripts.defines_old_scripts (table_view file.now) }
{
    match member(file, "script") {
        Some(Value::Table(scripts)) => has_keys(scripts),
        _ => false,
    }
}

// Whether a table has keys.
fn has_keys(table: &Table) -> bool
    ensures { result ≡ scripts.has_keys (table_view table.now) }
{
    !table.is_empty()
}

// How many script rules of a profile name no script.
pub(crate) fn empty_in_profile(profile: &Value) -> usize
    ensures { result ≡ scripts.empty_in_profile (view profile.now) }
{
    match profile {
        Value::Table(profile) => empty_at(profile),
        _ => 0,
    }
}

// How many of the rules that stand in a profile do.
fn empty_at(profile: &Table) -> usize
    ensures { result ≡ scripts.empty_at (table_view profile.now) }
{
    match member(profile, "scripts") {
        Some(Value::Array(rules)) => empty_rules(rules.as_slice()),
        _ => 0,
    }
}

// How many rules do.
fn empty_rules(rules: &[Value]) -> usize
    ensures { result ≡ scripts.empty_rules (items_view rules.now) }
{
    rules.iter().filter(|rule| names_no_script(rule)).count()
}

// Whether a rule does.
fn names_no_script(rule: &Value) -> bool
    ensures { result ≡ scripts.names_no_script (view rule.now) }
{
    match rule {
        Value::Table(rule) => is_empty_rule(rule),
        _ => false,
    }
}

// Whether the table of a rule does.
fn is_empty_rule(rule: &Table) -> bool
    ensures { result ≡ scripts.is_empty_rule (table_view rule.now) }
{
    !has(rule, "list-wrapper") && !has(rule, "run-wrapper") && has_no_setup(rule)
}

// Whether something stands under a key.
fn has(table: &Table, key: &str) -> bool
    ensures { result ≡ scripts.has key.now (table_view table.now) }
{
    member(table, key).is_some()
}

// Whether the setup scripts of a rule are left out, or are none.
fn has_no_setup(rule: &Table) -> bool
    ensures { result ≡ scripts.has_no_setup (table_view rule.now) }
{
    match member(rule, "setup") {
        Some(Value::Array(names)) => has_no_items(names.as_slice()),
        Some(_) => false,
        None => true,
    }
}

// Whether a list has no items.
fn has_no_items(items: &[Value]) -> bool
    ensures { result ≡ scripts.has_no_items (items_view items.now) }
{
    items.is_empty()
}

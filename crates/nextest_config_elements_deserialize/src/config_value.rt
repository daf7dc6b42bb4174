// What is read without memory, and how a table's values of it are read.
ghost use Rattle.std.specs.Prelude.{◌≡◌, Option};
ghost use Rattle.toml.specs.Data.{Data};
ghost use Rattle.toml.specs.View.{members_view, view};
ghost use Rattle.nextest_config_elements_toml.specs.Paths.{Gives};
ghost use Rattle.nextest_config_elements_toml.specs.Reading as read;

use nextest_config_elements_toml::{TableMembers, ValueError, refused, refused_below};
use std::alloc::Global;
use toml::Value;

/// A value that is read without memory, by a rule: one type may have several rules.
pub trait ConfigValue<Rule>: Drop {
    // What a value is by the rule.
    ghost meaning: { Data → Option Self };

    /// What may stand there, in words.
    fn expected() -> &'static str;

    /// What a value is by the rule; `None` where it is none.
    fn from_value(value: &Value) -> Option<Self>
        ensures { result ≡ meaning (view value.now) };
}

/// A value that has no parts. An `Err` where it isn't one, or where there was no memory.
pub fn whole<Rule, T: ConfigValue<Rule>>(
    alloc: Global,
    value: &Value,
    path: &[&str],
) -> Result<T, ValueError>
    ensures { Gives path.now result (read.leaf T.meaning (view value.now)) }
{
    match T::from_value(value) {
        Some(found) => Ok(found),
        None => Err(refused(alloc, path, Some(value), T::expected())),
    }
}

/// The value of a key that must stand. An `Err` where it is missing or isn't one, or where there
/// was no memory.
pub fn required<Rule, T: ConfigValue<Rule>>(
    alloc: Global,
    members: &mut TableMembers<'_>,
    path: &[&str],
    key: &str,
) -> Result<T, ValueError>
    ensures read { Gives path.now result
        (read.required key.now T.meaning (members_view members.old)) }
    ensures members { members_view members.new ≡ members_view members.old }
{
    match members.get(key) {
        None => Err(refused_below(alloc, path, key, None, T::expected())),
        Some(value) => below(alloc, value, path, key),
    }
}

/// The value of a key that may be left out. An `Err` where what stands isn't one, or where there
/// was no memory.
pub fn optional<Rule, T: ConfigValue<Rule>>(
    alloc: Global,
    members: &mut TableMembers<'_>,
    path: &[&str],
    key: &str,
) -> Result<Option<T>, ValueError>
    ensures read { Gives path.now result
        (read.optional key.now T.meaning (members_view members.old)) }
    ensures members { members_view members.new ≡ members_view members.old }
{
    match members.get(key) {
        None => Ok(None),
        Some(value) => Ok(Some(below(alloc, value, path, key)?)),
    }
}

/// The value of a key for which something else stands where it is left out. An `Err` where what
/// stands isn't one, or where there was no memory.
pub fn defaulted<Rule, T: ConfigValue<Rule>>(
    alloc: Global,
    members: &mut TableMembers<'_>,
    path: &[&str],
    key: &str,
    otherwise: T,
) -> Result<T, ValueError>
    ensures read { Gives path.now result
        (read.defaulted key.now T.meaning otherwise (members_view members.old)) }
    ensures members { members_view members.new ≡ members_view members.old }
{
    match members.get(key) {
        None => Ok(otherwise),
        Some(value) => below(alloc, value, path, key),
    }
}

// The value of a key that stands.
fn below<Rule, T: ConfigValue<Rule>>(
    alloc: Global,
    value: &Value,
    path: &[&str],
    key: &str,
) -> Result<T, ValueError>
    ensures { Gives path.now result (read.under key.now (read.leaf T.meaning (view value.now))) }
{
    match T::from_value(value) {
        Some(found) => Ok(found),
        None => Err(refused_below(alloc, path, key, Some(value), T::expected())),
    }
}

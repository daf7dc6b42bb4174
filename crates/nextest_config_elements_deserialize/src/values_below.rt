// Values that are read below a path of any length.
ghost use Rattle.std.specs.Prelude.{◌≡◌, [], ◌∷◌, ◌++◌, None, IfOk, IfErr};
ghost use Rattle.toml.specs.Data.{get_member};
ghost use Rattle.toml.specs.View.{members_view, view};
ghost use Rattle.nextest_config_elements_toml.specs.Paths.{Gives, IsExpected, texts};
ghost use Rattle.nextest_config_elements_toml.specs.Reading.{under};
ghost use Rattle.nextest_config_elements_deserialize.specs.Below.{IsBelow, defaulted_by, required_by};
ghost use Rattle.nextest_config_elements_deserialize.specs.Keys.{optional_by};

use crate::deserialize_value::DeserializeValue;
use nextest_config_elements_toml::{KeyPath, TableMembers, ValueError, refused_below};
use std::alloc::{AllocError, Global};
use toml::Value;

/// What was refused, told below a key of the table at a path: with these in front of its own path,
/// and else as it was. Want of memory stays, and may be what comes of another error.
pub fn below(alloc: Global, path: &[&str], key: &str, error: ValueError) -> ValueError
    ensures { IsBelow (texts path.now ++ key.now ∷ []) error result }
{
    let ValueError::Refused(mut bad) = error else {
        return ValueError::OutOfMemory;
    };
    match path_below(alloc, path, key, &bad.path) {
        Ok(whole) => {
            bad.path = whole;
            ValueError::Refused(bad)
        }
        Err(AllocError) => ValueError::OutOfMemory,
    }
}

// A path that begins with others.
fn path_below(
    alloc: Global,
    path: &[&str],
    key: &str,
    inner: &KeyPath,
) -> Result<KeyPath, AllocError>
    ensures { IfOk result
        (λ whole. whole.keys ≡ (texts path.now ++ key.now ∷ []) ++ inner.now.keys) }
{
    let mut whole = KeyPath::of_keys(alloc, path, &[key])?;
    for inner_key in inner.keys.as_slice() {
        whole.keys.push(inner_key.clone()?)?;
    }
    Ok(whole)
}

/// The value of a key that may be left out, by the reader of its type, whose `Err` it has.
pub fn optional_value<T: DeserializeValue>(
    alloc: Global,
    members: &mut TableMembers<'_>,
    path: &[&str],
    key: &str,
) -> Result<Option<T>, ValueError>
    ensures read { Gives path.now result
        (optional_by key.now T.reading (members_view members.old)) }
    ensures members { members_view members.new ≡ members_view members.old }
{
    match members.get(key) {
        None => Ok(None),
        Some(value) => Ok(Some(value_below(alloc, value, path, key)?)),
    }
}

/// The value of a key that must stand, by the reader of its type, whose `Err` it has. Where it is
/// missing, an `Err` says by `expected` what may stand there.
pub fn required_value<T: DeserializeValue>(
    alloc: Global,
    members: &mut TableMembers<'_>,
    path: &[&str],
    key: &str,
    expected: &'static str,
) -> Result<T, ValueError>
    ensures read { Gives path.now result
        (required_by key.now T.reading (members_view members.old)) }
    ensures missing { get_member key.now (members_view members.old) ≡ None
        → IfErr result (IsExpected expected.now) }
    ensures members { members_view members.new ≡ members_view members.old }
{
    match members.get(key) {
        None => Err(refused_below(alloc, path, key, None, expected)),
        Some(value) => value_below(alloc, value, path, key),
    }
}

/// The value of a key for which something else stands where it is left out, by the reader of its
/// type, whose `Err` it has.
pub fn defaulted_value<T: DeserializeValue>(
    alloc: Global,
    members: &mut TableMembers<'_>,
    path: &[&str],
    key: &str,
    otherwise: T,
) -> Result<T, ValueError>
    ensures read { Gives path.now result
        (defaulted_by key.now T.reading otherwise (members_view members.old)) }
    ensures members { members_view members.new ≡ members_view members.old }
{
    match members.get(key) {
        None => Ok(otherwise),
        Some(value) => value_below(alloc, value, path, key),
    }
}

// The value of a key that stands.
#[tactic(auto, using(crate::proofs::Giving::gives_below))]
fn value_below<T: DeserializeValue>(
    alloc: Global,
    value: &Value,
    path: &[&str],
    key: &str,
) -> Result<T, ValueError>
    ensures { Gives path.now result (under key.now (T.reading (view value.now))) }
{
    match T::deserialize(alloc, value, &[]) {
        Ok(found) => Ok(found),
        Err(error) => Err(below(alloc, path, key, error)),
    }
}

// How a value is refused.
ghost use Rattle.std.specs.Prelude.{◌≡◌, ◌++◌, [], ◌∷◌, IfOk, option_map};
ghost use Rattle.toml.specs.View.{view};
ghost use Rattle.nextest_config_elements_toml.specs.Paths.{IsExpected, IsFound, IsRefusedAt, IsTold, texts};

use crate::bad_value::BadValue;
use crate::key_path::KeyPath;
use crate::value_error::ValueError;
use nextest_text::Text;
use std::alloc::{AllocError, Global};
use toml::Value;

/// Refuses what stands at a path, or that nothing does.
pub fn refused(
    alloc: Global,
    path: &[&str],
    found: Option<&Value>,
    expected: &'static str,
) -> ValueError
    ensures path { IsRefusedAt (texts path.now) result }
    ensures expected { IsExpected expected.now result }
    ensures found { IsFound (option_map (λ it. view it.now) found.entry) result }
{
    match bad_value(alloc, path, &[], found, expected) {
        Ok(bad) => ValueError::Refused(bad),
        Err(AllocError) => ValueError::OutOfMemory,
    }
}

/// Refuses what stands at a key of the table at a path, or that nothing does.
pub fn refused_below(
    alloc: Global,
    path: &[&str],
    key: &str,
    found: Option<&Value>,
    expected: &'static str,
) -> ValueError
    ensures path { IsRefusedAt (texts path.now ++ key.now ∷ []) result }
    ensures expected { IsExpected expected.now result }
    ensures found { IsFound (option_map (λ it. view it.now) found.entry) result }
{
    match bad_value(alloc, path, &[key], found, expected) {
        Ok(bad) => ValueError::Refused(bad),
        Err(AllocError) => ValueError::OutOfMemory,
    }
}

// A value that is refused.
fn bad_value(
    alloc: Global,
    path: &[&str],
    further: &[&str],
    found: Option<&Value>,
    expected: &'static str,
) -> Result<BadValue, AllocError>
    ensures path { IfOk result (λ bad. bad.path.keys ≡ texts path.now ++ texts further.now) }
    ensures expected { IfOk result (λ bad. bad.expected.now ≡ expected.now) }
    ensures found { IfOk result
        (λ bad. IsTold (option_map (λ it. view it.now) found.entry) bad.found) }
{
    Ok(BadValue {
        path: KeyPath::of_keys(alloc, path, further)?,
        expected,
        found: told(alloc, found)?,
    })
}

// What stands there, in words.
fn told(alloc: Global, found: Option<&Value>) -> Result<Text, AllocError>
    ensures { IfOk result (λ text. IsTold (option_map (λ it. view it.now) found.entry) text) }
{
    match found {
        None => Text::from_str(alloc, "nothing"),
        Some(Value::String(text)) => Ok(Text::from(format!(in alloc; "{text:?}")?)),
        Some(Value::Integer(number)) => Ok(Text::from(format!(in alloc; "{number}")?)),
        Some(Value::Boolean(truth)) => Ok(Text::from(format!(in alloc; "{truth}")?)),
        Some(Value::Float(_)) => Text::from_str(alloc, "a float"),
        Some(Value::Datetime(_)) => Text::from_str(alloc, "a date or time"),
        Some(Value::Array(_)) => Text::from_str(alloc, "an array"),
        Some(Value::Table(_)) => Text::from_str(alloc, "a table"),
    }
}

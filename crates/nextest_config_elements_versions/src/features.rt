// How the names of features are read.
ghost use Rattle.std.specs.Prelude.{◌≡◌, ◌++◌, [], ◌∷◌, IfOk, if◌then◌else◌};
ghost use Rattle.toml.specs.View.{view, table_view};
ghost use Rattle.nextest_config_elements_toml.specs.Paths.{Gives};
ghost use Rattle.nextest_config_elements_versions.specs.Demand.{features, keys_in};

use nextest_config_elements_toml::{ValueError, refused, refused_below, texts_in};
use nextest_text::{Listing, Text};
use std::alloc::{AllocError, Global};
use toml::{Table, Value};

/// The names of the features that `value`, at `path`, asks for: an array of texts, or a table of
/// truth values, of which `false` asks for nothing. Another value is refused with the path of the
/// first thing that is none.
pub fn deserialize_experimental(
    alloc: Global,
    value: &Value,
    path: &[&str],
) -> Result<Listing<Text>, ValueError>
    ensures { Gives path.now result (features (view value.now)) }
{
    match value {
        Value::Array(items) => texts_in(alloc, items.as_slice(), path),
        Value::Table(table) => keys_in(alloc, table, path),
        _ => Err(refused(
            alloc,
            path,
            Some(value),
            "an array of strings, or a table of booleans",
        )),
    }
}

// Each key of a table that is true.
fn keys_in(alloc: Global, table: &Table, path: &[&str]) -> Result<Listing<Text>, ValueError>
    ensures { Gives path.now result (keys_in (table_view table.now)) }
{
    let mut names = Listing::new(alloc);
    for (name, given) in table {
        let Value::Boolean(is_asked) = given else {
            return Err(refused_below(alloc, path, name.as_str(), Some(given), "a boolean"));
        };
        push_asked(alloc, &mut names, name.as_str(), *is_asked)?;
    }
    Ok(names)
}

// Adds the name of a key that is true.
fn push_asked(
    alloc: Global,
    names: &mut Listing<Text>,
    name: &str,
    is_asked: bool,
) -> Result<(), AllocError>
    ensures { IfOk result
        (λ _. names.new ≡ (if is_asked then names.old ++ name.now ∷ [] else names.old)) }
{
    if is_asked {
        push_text(alloc, names, name)
    } else {
        Ok(())
    }
}

// Adds a text to a list.
pub(crate) fn push_text(
    alloc: Global,
    texts: &mut Listing<Text>,
    text: &str,
) -> Result<(), AllocError>
    ensures { IfOk result (λ _. texts.new ≡ texts.old ++ text.now ∷ []) }
{
    texts.push(Text::from_str(alloc, text)?)?;
    Ok(())
}

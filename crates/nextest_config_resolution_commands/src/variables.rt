// The environment variables of a command.
ghost use Rattle.std.specs.Prelude.{◌≡◌, [], ◌∷◌, ◌++◌, IfOk};
ghost use Rattle.toml.specs.View.{table_view, view};
ghost use Rattle.nextest_config_elements_toml.specs.Paths.{Gives, texts};
ghost use Rattle.nextest_config_elements_toml.specs.Reading.{leaf, under};
ghost use Rattle.nextest_config_resolution_commands.specs.Commands as read;

use crate::script_command::ScriptCommandEnvMap;
use nextest_config_elements_deserialize::DeserializeValue;
use nextest_config_elements_toml::{BadValue, KeyPath, ValueError, refused, refused_below};
use nextest_text::{Listing, Text};
use std::alloc::{AllocError, Global};
use toml::{Table, Value};

impl DeserializeValue for ScriptCommandEnvMap {
    ghost reading = { read.env_in };

    fn deserialize(
        alloc: Global,
        value: &Value,
        path: &[&str],
    ) -> Result<ScriptCommandEnvMap, ValueError> {
        env_in(alloc, value, path)
    }
}

// A table of variables.
fn env_in(alloc: Global, value: &Value, path: &[&str]) -> Result<ScriptCommandEnvMap, ValueError>
    ensures { Gives path.now result (read.env_in (view value.now)) }
{
    match value {
        Value::Table(table) => {
            let variables = variables_in(alloc, table, path)?;
            Ok(ScriptCommandEnvMap { variables })
        }
        _ => Err(refused(alloc, path, Some(value), "a table of strings")),
    }
}

// Each key of a table is a variable.
fn variables_in(
    alloc: Global,
    table: &Table,
    path: &[&str],
) -> Result<Listing<(Text, Text)>, ValueError>
    ensures { Gives path.now result (read.variables_in (table_view table.now)) }
{
    let mut variables = Listing::new(alloc);
    for (name, given) in table {
        let variable = variable_of(alloc, name.as_str(), given, path)?;
        variables.push(variable)?;
    }
    Ok(variables)
}

// The variable of a name, with what stands there.
fn variable_of(
    alloc: Global,
    name: &str,
    given: &Value,
    path: &[&str],
) -> Result<(Text, Text), ValueError>
    ensures { Gives path.now result (under name.now (read.variable_in name.now (view given.now))) }
{
    if name.starts_with("NEXTEST") {
        return Err(ValueError::Refused(bad_name(alloc, name, path)?));
    }
    named_text(alloc, name, given, path)
}

// A name with the text that stands there.
fn named_text(
    alloc: Global,
    name: &str,
    given: &Value,
    path: &[&str],
) -> Result<(Text, Text), ValueError>
    ensures { Gives path.now result
        (under name.now (leaf (read.named_text name.now) (view given.now))) }
{
    match given {
        Value::String(text) => {
            let name = Text::from_str(alloc, name)?;
            let text = Text::from_str(alloc, text.as_str())?;
            Ok((name, text))
        }
        _ => Err(refused_below(alloc, path, name, Some(given), "a string")),
    }
}

// A name that is taken, told as it is written.
fn bad_name(alloc: Global, name: &str, path: &[&str]) -> Result<BadValue, AllocError>
    ensures { IfOk result (λ bad. bad.path.keys ≡ texts path.now ++ name.now ∷ []) }
{
    let path = KeyPath::of_keys(alloc, path, &[name])?;
    let expected = "the name of a variable, which doesn't begin with `NEXTEST`";
    BadValue::of_key(alloc, path, name, expected)
}

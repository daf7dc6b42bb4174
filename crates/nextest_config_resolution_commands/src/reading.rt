// How a command is read.
ghost use Rattle.std.specs.Prelude.{◌≡◌};
ghost use Rattle.toml.specs.View.{table_view, view};
ghost use Rattle.nextest_config_elements_toml.specs.Paths.{Gives};
ghost use Rattle.nextest_config_resolution_commands.specs.Commands as read;

use crate::command_line::{CommandLine, line_in};
use crate::script_command::{ScriptCommand, ScriptCommandEnvMap, ScriptCommandRelativeTo};
use nextest_config_elements_deserialize::{
    Any, ConfigValue, DeserializeValue, defaulted, defaulted_value, required_value,
};
use nextest_config_elements_toml::{TableMembers, ValueError};
use nextest_text::Listing;
use std::alloc::Global;
use toml::{Table, Value};

/// The command of a script: its words in one text, as `split_words` divides them, a list of texts,
/// or a table of `command-line`, one of these two, which must stand, `env`, and `relative-to`,
/// `none`, `workspace-root` or `target`. The first word is the program.
///
/// # Errors
///
/// `Refused` where there is no word, or a quote isn't closed; where a variable of `env` begins with
/// `NEXTEST` or is no text; and for every other value. A table is looked at by the bytes of its
/// keys, and other keys are read past.
pub fn deserialize_script_command(
    alloc: Global,
    value: &Value,
    path: &[&str],
) -> Result<ScriptCommand, ValueError>
    ensures { Gives path.now result (read.command_in (view value.now)) }
{
    match value {
        Value::Table(table) => command_table(alloc, table, path),
        _ => plain_command(alloc, value, path),
    }
}

impl DeserializeValue for ScriptCommand {
    ghost reading = { read.command_in };

    fn deserialize(
        alloc: Global,
        value: &Value,
        path: &[&str],
    ) -> Result<ScriptCommand, ValueError> {
        deserialize_script_command(alloc, value, path)
    }
}

// What a table says.
fn command_table(alloc: Global, table: &Table, path: &[&str]) -> Result<ScriptCommand, ValueError>
    ensures { Gives path.now result (read.command_table (table_view table.now)) }
{
    let mut members = TableMembers::new(table);
    let expected = "a command: a string or an array of strings";
    let line: CommandLine = required_value(alloc, &mut members, path, "command-line", expected)?;
    let env = defaulted_value(alloc, &mut members, path, "env", no_variables(alloc))?;
    let none = ScriptCommandRelativeTo::None;
    let relative_to = defaulted::<Any, ScriptCommandRelativeTo>(
        alloc,
        &mut members,
        path,
        "relative-to",
        none,
    )?;
    Ok(ScriptCommand {
        program: line.program,
        args: line.args,
        env,
        relative_to,
    })
}

// What is run alone.
fn plain_command(alloc: Global, value: &Value, path: &[&str]) -> Result<ScriptCommand, ValueError>
    ensures { Gives path.now result (read.plain_command (view value.now)) }
{
    let line = line_in(alloc, value, path)?;
    Ok(ScriptCommand {
        program: line.program,
        args: line.args,
        env: no_variables(alloc),
        relative_to: ScriptCommandRelativeTo::None,
    })
}

// No variables.
fn no_variables(alloc: Global) -> ScriptCommandEnvMap
    ensures { result ≡ read.no_variables }
{
    ScriptCommandEnvMap {
        variables: Listing::new(alloc),
    }
}

impl ConfigValue<Any> for ScriptCommandRelativeTo {
    ghost meaning = { read.relative_to };

    fn expected() -> &'static str {
        "`none`, `workspace-root` or `target`"
    }

    fn from_value(value: &Value) -> Option<ScriptCommandRelativeTo> {
        match value.as_str()? {
            "none" => Some(ScriptCommandRelativeTo::None),
            "workspace-root" => Some(ScriptCommandRelativeTo::WorkspaceRoot),
            "target" => Some(ScriptCommandRelativeTo::Target),
            _ => None,
        }
    }
}

// Wrapper scripts.
ghost use Rattle.std.specs.Prelude.{◌≡◌};
ghost use Rattle.toml.specs.View.{table_view};
ghost use Rattle.nextest_config_elements_toml.specs.Paths.{Gives};
ghost use Rattle.nextest_config_elements_deserialize.specs.Keys.{table_by};
ghost use Rattle.nextest_config_resolution_scripts.specs.Scripts.{wrapper_script_in};

use nextest_config_elements_deserialize::{
    Any, ConfigValue, DeserializeValue, defaulted, required_value,
};
use nextest_config_elements_toml::{TableMembers, ValueError, refused};
use nextest_config_resolution_commands::ScriptCommand;
use std::alloc::{AllocError, Global};
use toml::{Table, Value};

/// A wrapper script: a command that the command of a test, or of what lists tests, is handed to.
#[derive(PartialEq, Eq)]
pub struct WrapperScriptConfig {
    /// `command`: what is run.
    pub command: ScriptCommand,
    /// `target-runner`: what becomes of the runner that the target has.
    pub target_runner: WrapperScriptTargetRunner,
}

impl Clone for WrapperScriptConfig {
    ghost is_clone = { λ original copy. copy ≡ original };

    fn clone(&self) -> Result<WrapperScriptConfig, AllocError> {
        Ok(WrapperScriptConfig {
            command: self.command.clone()?,
            target_runner: self.target_runner,
        })
    }
}

// One call drops it, whoever holds it.
impl Drop for WrapperScriptConfig {
    fn drop(self) {
        let Self {
            command: _,
            target_runner: _,
        } = self;
    }
}

/// What becomes of the runner that a target has, where a wrapper script stands too.
#[derive(Clone, Copy, Debug, PartialEq, Eq, Hash)]
pub enum WrapperScriptTargetRunner {
    /// The runner is left out.
    Ignore,
    /// The runner is taken, and the wrapper script is left out.
    OverridesWrapper,
    /// The wrapper script is handed the runner.
    WithinWrapper,
    /// The runner is handed the wrapper script.
    AroundWrapper,
}

impl ConfigValue<Any> for WrapperScriptTargetRunner {
    ghost use Rattle.nextest_config_resolution_scripts.specs.Scripts.{target_runner};

    ghost meaning = { target_runner };

    fn expected() -> &'static str {
        "`ignore`, `overrides-wrapper`, `within-wrapper` or `around-wrapper`"
    }

    fn from_value(value: &Value) -> Option<WrapperScriptTargetRunner> {
        match value.as_str()? {
            "ignore" => Some(WrapperScriptTargetRunner::Ignore),
            "overrides-wrapper" => Some(WrapperScriptTargetRunner::OverridesWrapper),
            "within-wrapper" => Some(WrapperScriptTargetRunner::WithinWrapper),
            "around-wrapper" => Some(WrapperScriptTargetRunner::AroundWrapper),
            _ => None,
        }
    }
}

impl DeserializeValue for WrapperScriptConfig {
    ghost reading = { table_by wrapper_script_in };

    fn deserialize(
        alloc: Global,
        value: &Value,
        path: &[&str],
    ) -> Result<WrapperScriptConfig, ValueError> {
        match value {
            Value::Table(table) => wrapper_script_in(alloc, table, path),
            _ => Err(refused(alloc, path, Some(value), "a table")),
        }
    }
}

// What the table of a wrapper script says.
#[tactic(auto, unfolding(crate::specs::Scripts::wrapper_script_in))]
fn wrapper_script_in(
    alloc: Global,
    table: &Table,
    path: &[&str],
) -> Result<WrapperScriptConfig, ValueError>
    ensures { Gives path.now result (wrapper_script_in (table_view table.now)) }
{
    let mut members = TableMembers::new(table);
    let command = required_value::<ScriptCommand>(
        alloc,
        &mut members,
        path,
        "command",
        "a command",
    )?;
    let ignored = WrapperScriptTargetRunner::Ignore;
    let target_runner = defaulted::<Any, WrapperScriptTargetRunner>(
        alloc,
        &mut members,
        path,
        "target-runner",
        ignored,
    )?;
    Ok(WrapperScriptConfig {
        command,
        target_runner,
    })
}

// Setup scripts.
ghost use Rattle.std.specs.Prelude.{◌≡◌};
ghost use Rattle.toml.specs.View.{table_view};
ghost use Rattle.nextest_config_elements_toml.specs.Paths.{Gives};
ghost use Rattle.nextest_config_elements_deserialize.specs.Keys.{table_by};
ghost use Rattle.nextest_config_resolution_scripts.specs.Defined.{lets_through};
ghost use Rattle.nextest_config_resolution_scripts.specs.Scripts.{has_all, junit_in, setup_script_in, slow_script, slow_script_in};

use nextest_config_elements_choices::SlowTimeoutResult;
use nextest_config_elements_deserialize::{
    Any, DeserializeValue, defaulted, defaulted_value, optional_value, required_value,
};
use nextest_config_elements_toml::{TableMembers, ValueError, refused};
use nextest_config_elements_values::{ConfigDuration, LeakTimeout, SlowTimeout};
use nextest_config_resolution_commands::ScriptCommand;
use std::alloc::{AllocError, Global};
use toml::{Table, Value};

/// A setup script: a command that is run before the tests that need it.
pub struct SetupScriptConfig {
    /// `command`: what is run.
    pub command: ScriptCommand,
    /// `slow-timeout`: when it is slow, and when it is ended for that.
    pub slow_timeout: Option<SetupScriptSlowTimeout>,
    /// `leak-timeout`: how long handles may stay open behind it.
    pub leak_timeout: Option<LeakTimeout>,
    /// `capture-stdout`: whether its standard output is captured.
    pub capture_stdout: bool,
    /// `capture-stderr`: whether its standard error is captured.
    pub capture_stderr: bool,
    /// `junit`: what the report in JUnit's form has of it.
    pub junit: SetupScriptJunitConfig,
}

impl Clone for SetupScriptConfig {
    ghost is_clone = { λ original copy. copy ≡ original };

    fn clone(&self) -> Result<SetupScriptConfig, AllocError> {
        Ok(SetupScriptConfig {
            command: self.command.clone()?,
            slow_timeout: self.slow_timeout,
            leak_timeout: self.leak_timeout,
            capture_stdout: self.capture_stdout,
            capture_stderr: self.capture_stderr,
            junit: self.junit,
        })
    }
}

// One call drops it, whoever holds it.
impl Drop for SetupScriptConfig {
    fn drop(self) {
        let Self {
            command: _,
            slow_timeout: _,
            leak_timeout: _,
            capture_stdout: _,
            capture_stderr: _,
            junit: _,
        } = self;
    }
}

impl SetupScriptConfig {
    /// Whether some of its output isn't captured: its standard output, its standard error, or both.
    pub fn no_capture(&self) -> bool
        ensures { result ≡ lets_through self.now }
    {
        !(self.capture_stdout && self.capture_stderr)
    }
}

/// When a setup script is slow, and when it is ended for that.
#[derive(Clone, Copy, Debug, PartialEq, Eq)]
pub struct SetupScriptSlowTimeout {
    /// After how long it is slow, above 0 in every accepted configuration.
    pub period: ConfigDuration,
    /// After how many periods it is ended, above 0 in an accepted configuration; `None` where it
    /// never is.
    pub terminate_after: Option<u64>,
    /// How long it may go on once it is told to end.
    pub grace_period: ConfigDuration,
    /// What becomes of one that is ended so.
    pub on_timeout: SlowTimeoutResult,
}

/// What a report in JUnit's form has of a setup script.
#[derive(Clone, Copy, Debug, PartialEq, Eq)]
pub struct SetupScriptJunitConfig {
    /// Its outputs, where it passes.
    pub store_success_output: bool,
    /// Its outputs, where it fails.
    pub store_failure_output: bool,
}

impl Default for SetupScriptJunitConfig {
    ghost is_default = { λ it. it ≡ has_all };

    fn default() -> SetupScriptJunitConfig {
        SetupScriptJunitConfig {
            store_success_output: true,
            store_failure_output: true,
        }
    }
}

impl DeserializeValue for SetupScriptJunitConfig {
    ghost reading = { table_by junit_in };

    fn deserialize(
        alloc: Global,
        value: &Value,
        path: &[&str],
    ) -> Result<SetupScriptJunitConfig, ValueError> {
        match value {
            Value::Table(table) => junit_in(alloc, table, path),
            _ => Err(refused(alloc, path, Some(value), "a table")),
        }
    }
}

// What the table of `junit` says.
#[tactic(auto, unfolding(crate::specs::Scripts::junit_in))]
fn junit_in(
    alloc: Global,
    table: &Table,
    path: &[&str],
) -> Result<SetupScriptJunitConfig, ValueError>
    ensures { Gives path.now result (junit_in (table_view table.now)) }
{
    let mut members = TableMembers::new(table);
    let failing = defaulted::<Any, bool>(alloc, &mut members, path, "store-failure-output", true)?;
    let passing = defaulted::<Any, bool>(alloc, &mut members, path, "store-success-output", true)?;
    Ok(SetupScriptJunitConfig {
        store_success_output: passing,
        store_failure_output: failing,
    })
}

impl DeserializeValue for SetupScriptSlowTimeout {
    ghost reading = { slow_script_in };

    fn deserialize(
        alloc: Global,
        value: &Value,
        path: &[&str],
    ) -> Result<SetupScriptSlowTimeout, ValueError> {
        Ok(slow_script(SlowTimeout::deserialize(alloc, value, path)?))
    }
}

// When a script is slow, as a test is.
fn slow_script(timeout: SlowTimeout) -> SetupScriptSlowTimeout
    ensures { result ≡ slow_script timeout }
{
    SetupScriptSlowTimeout {
        period: timeout.period,
        terminate_after: timeout.terminate_after,
        grace_period: timeout.grace_period,
        on_timeout: timeout.on_timeout,
    }
}

impl DeserializeValue for SetupScriptConfig {
    ghost reading = { table_by setup_script_in };

    fn deserialize(
        alloc: Global,
        value: &Value,
        path: &[&str],
    ) -> Result<SetupScriptConfig, ValueError> {
        match value {
            Value::Table(table) => setup_script_in(alloc, table, path),
            _ => Err(refused(alloc, path, Some(value), "a table")),
        }
    }
}

// What the table of a setup script says.
#[tactic(auto, unfolding(crate::specs::Scripts::setup_script_in))]
fn setup_script_in(
    alloc: Global,
    table: &Table,
    path: &[&str],
) -> Result<SetupScriptConfig, ValueError>
    ensures { Gives path.now result (setup_script_in (table_view table.now)) }
{
    let mut members = TableMembers::new(table);
    let capture_stderr = defaulted::<Any, bool>(
        alloc,
        &mut members,
        path,
        "capture-stderr",
        false,
    )?;
    let capture_stdout = defaulted::<Any, bool>(
        alloc,
        &mut members,
        path,
        "capture-stdout",
        false,
    )?;
    let command = required_value::<ScriptCommand>(
        alloc,
        &mut members,
        path,
        "command",
        "a command",
    )?;
    let all = SetupScriptJunitConfig::default();
    let junit = defaulted_value::<SetupScriptJunitConfig>(alloc, &mut members, path, "junit", all)?;
    let leak_timeout = optional_value::<LeakTimeout>(alloc, &mut members, path, "leak-timeout")?;
    let slow_timeout = optional_value::<SetupScriptSlowTimeout>(
        alloc,
        &mut members,
        path,
        "slow-timeout",
    )?;
    Ok(SetupScriptConfig {
        command,
        slow_timeout,
        leak_timeout,
        capture_stdout,
        capture_stderr,
        junit,
    })
}

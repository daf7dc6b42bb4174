// How long something may take.
ghost use Rattle.std.specs.Prelude.{◌≡◌};
ghost use Rattle.toml.specs.View.{table_view, view};
ghost use Rattle.nextest_config_elements_toml.specs.Paths.{Gives};
ghost use Rattle.nextest_config_elements_deserialize.specs.Timeouts as read;

use crate::config_value::{defaulted, optional, required, whole};
use crate::values::{Any, Positive};
use nextest_config_elements_choices::{LeakTimeoutResult, SlowTimeoutResult};
use nextest_config_elements_toml::{TableMembers, ValueError};
use nextest_config_elements_values::{ConfigDuration, GlobalTimeout, LeakTimeout, SlowTimeout};
use std::alloc::Global;
use toml::{Table, Value};

/// When a test or script is slow: a duration above 0 is its period alone, and it is never ended. A
/// table has `period`, a duration above 0, and may have `terminate-after`, an integer from 1 on,
/// `grace-period`, a duration (10 seconds where it is left out), and `on-timeout`, `fail` or `pass`
/// (`fail` where it is left out). An `Err` names the first of these, by the bytes of their keys,
/// that is missing or may not be; other keys are read past.
pub fn deserialize_slow_timeout(
    alloc: Global,
    value: &Value,
    path: &[&str],
) -> Result<SlowTimeout, ValueError>
    ensures { Gives path.now result (read.slow_timeout_in (view value.now)) }
{
    match value {
        Value::Table(table) => slow_in(alloc, table, path),
        _ => plain_slow(alloc, value, path),
    }
}

// Only a period.
fn plain_slow(alloc: Global, value: &Value, path: &[&str]) -> Result<SlowTimeout, ValueError>
    ensures { Gives path.now result (read.plain_slow (view value.now)) }
{
    let period = whole::<Positive, ConfigDuration>(alloc, value, path)?;
    Ok(SlowTimeout::after(period))
}

// What a table says.
fn slow_in(alloc: Global, table: &Table, path: &[&str]) -> Result<SlowTimeout, ValueError>
    ensures { Gives path.now result (read.slow_in (table_view table.now)) }
{
    let mut members = TableMembers::new(table);
    let grace_period = defaulted::<Any, ConfigDuration>(
        alloc,
        &mut members,
        path,
        "grace-period",
        SlowTimeout::default_grace_period(),
    )?;
    let fail = SlowTimeoutResult::Fail;
    let on_timeout = defaulted::<Any, SlowTimeoutResult>(
        alloc,
        &mut members,
        path,
        "on-timeout",
        fail,
    )?;
    let period = required::<Positive, ConfigDuration>(alloc, &mut members, path, "period")?;
    let terminate_after = optional::<Positive, u64>(alloc, &mut members, path, "terminate-after")?;
    Ok(SlowTimeout {
        period,
        terminate_after,
        grace_period,
        on_timeout,
    })
}

/// How long handles may stay open: a duration is that period, and what leaves them open for longer
/// passes. A table has `period`, a duration, and may have `result`, `pass` or `fail`. An `Err`
/// names the first of these that is missing or may not be; other keys are read past.
pub fn deserialize_leak_timeout(
    alloc: Global,
    value: &Value,
    path: &[&str],
) -> Result<LeakTimeout, ValueError>
    ensures { Gives path.now result (read.leak_timeout_in (view value.now)) }
{
    match value {
        Value::Table(table) => leak_in(alloc, table, path),
        _ => plain_leak(alloc, value, path),
    }
}

// Only a period.
fn plain_leak(alloc: Global, value: &Value, path: &[&str]) -> Result<LeakTimeout, ValueError>
    ensures { Gives path.now result (read.plain_leak (view value.now)) }
{
    Ok(LeakTimeout {
        period: whole::<Any, ConfigDuration>(alloc, value, path)?,
        result: LeakTimeoutResult::Pass,
    })
}

// What a table says.
fn leak_in(alloc: Global, table: &Table, path: &[&str]) -> Result<LeakTimeout, ValueError>
    ensures { Gives path.now result (read.leak_in (table_view table.now)) }
{
    let mut members = TableMembers::new(table);
    let period = required::<Any, ConfigDuration>(alloc, &mut members, path, "period")?;
    let pass = LeakTimeoutResult::Pass;
    let result = defaulted::<Any, LeakTimeoutResult>(alloc, &mut members, path, "result", pass)?;
    Ok(LeakTimeout { period, result })
}

/// How long a run may take: a duration above 0. An `Err` for everything else.
pub fn deserialize_global_timeout(
    alloc: Global,
    value: &Value,
    path: &[&str],
) -> Result<GlobalTimeout, ValueError>
    ensures { Gives path.now result (read.global_timeout_in (view value.now)) }
{
    Ok(GlobalTimeout {
        period: whole::<Positive, ConfigDuration>(alloc, value, path)?,
    })
}

// When failing tests stop a run.
ghost use Rattle.std.specs.Prelude.{◌≡◌};
ghost use Rattle.toml.specs.View.{table_view, view};
ghost use Rattle.nextest_config_elements_toml.specs.Paths.{Gives};
ghost use Rattle.nextest_config_elements_deserialize.specs.Limits as read;

use crate::config_value::{defaulted, required, whole};
use crate::limit::Limit;
use crate::values::Any;
use nextest_config_elements_choices::{MaxFail, TerminateMode};
use nextest_config_elements_toml::{TableMembers, ValueError};
use std::alloc::Global;
use toml::{Table, Value};

/// When failing tests stop a run: with `true` the first does, and what runs may end; with `false`
/// none does. A table has `max-fail`, what failing tests have to weigh together, an integer from 1
/// to 9223372036854775807 or `all`, and may have `terminate`, `wait` or `immediate` (`wait` where it is left out); beside `all` it is read
/// and left aside. An `Err` names the first of these that is missing or may not be; other keys are
/// read past.
pub fn deserialize_fail_fast(
    alloc: Global,
    value: &Value,
    path: &[&str],
) -> Result<MaxFail, ValueError>
    ensures { Gives path.now result (read.fail_fast_in (view value.now)) }
{
    match value {
        Value::Table(table) => limit_in(alloc, table, path),
        _ => switch_in(alloc, value, path),
    }
}

// What a table says.
fn limit_in(alloc: Global, table: &Table, path: &[&str]) -> Result<MaxFail, ValueError>
    ensures { Gives path.now result (read.limit_in (table_view table.now)) }
{
    let mut members = TableMembers::new(table);
    let limit = required::<Any, Limit>(alloc, &mut members, path, "max-fail")?;
    let wait = TerminateMode::Wait;
    let terminate = defaulted::<Any, TerminateMode>(alloc, &mut members, path, "terminate", wait)?;
    Ok(stopped_at(limit, terminate))
}

// A limit, and how a run stops there.
fn stopped_at(limit: Limit, terminate: TerminateMode) -> MaxFail
    ensures { result ≡ read.stopped_at limit terminate }
{
    match limit {
        Limit::Count(max_fail) => MaxFail::Count {
            max_fail,
            terminate,
        },
        Limit::All => MaxFail::All,
    }
}

// The first failing test stops a run, or none does.
fn switch_in(alloc: Global, value: &Value, path: &[&str]) -> Result<MaxFail, ValueError>
    ensures { Gives path.now result (read.switch_in (view value.now)) }
{
    Ok(MaxFail::from_fail_fast(whole::<Any, bool>(alloc, value, path)?))
}

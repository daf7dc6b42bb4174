// How a failing test is tried again.
ghost use Rattle.std.specs.Prelude.{◌≡◌};
ghost use Rattle.toml.specs.View.{members_view, table_view, view};
ghost use Rattle.nextest_config_elements_toml.specs.Paths.{Gives};
ghost use Rattle.nextest_config_elements_deserialize.specs.Retries as read;

use crate::backoff::Backoff;
use crate::config_value::{defaulted, optional, required, whole};
use crate::values::{Any, Positive};
use nextest_config_elements_toml::{TableMembers, ValueError, refused_below};
use nextest_config_elements_values::{ConfigDuration, RetryPolicy};
use std::alloc::Global;
use toml::{Table, Value};

/// How a failing test is tried again: an integer from 0 to 4294967295 is a count of further
/// attempts without delay; a table has `backoff`, `fixed` or `exponential`, and `count`, and may
/// have `delay` and `jitter`. Fixed delays are 0 where `delay` is left out, and `jitter` needs one
/// above 0; `max-delay` is read past. Exponential ones need a `count` and a `delay` above 0, and a
/// `max-delay` that stands isn't below `delay`. An `Err` names the first of these, by the bytes of
/// their keys, that is missing or may not be; other keys are read past.
pub fn deserialize_retry_policy(
    alloc: Global,
    value: &Value,
    path: &[&str],
) -> Result<RetryPolicy, ValueError>
    ensures { Gives path.now result (read.retry_policy_in (view value.now)) }
{
    match value {
        Value::Table(table) => policy_in(alloc, table, path),
        _ => plain_policy(alloc, value, path),
    }
}

// So many more attempts, without delay.
fn plain_policy(alloc: Global, value: &Value, path: &[&str]) -> Result<RetryPolicy, ValueError>
    ensures { Gives path.now result (read.plain_policy (view value.now)) }
{
    let count = whole::<Any, u32>(alloc, value, path)?;
    Ok(RetryPolicy::new_without_delay(count))
}

// What a table says.
fn policy_in(alloc: Global, table: &Table, path: &[&str]) -> Result<RetryPolicy, ValueError>
    ensures { Gives path.now result (read.policy_in (table_view table.now)) }
{
    let mut members = TableMembers::new(table);
    match required::<Any, Backoff>(alloc, &mut members, path, "backoff")? {
        Backoff::Fixed => fixed_in(alloc, &mut members, path),
        Backoff::Exponential => exponential_in(alloc, &mut members, path),
    }
}

// Each delay is the same.
fn fixed_in(
    alloc: Global,
    members: &mut TableMembers<'_>,
    path: &[&str],
) -> Result<RetryPolicy, ValueError>
    ensures { Gives path.now result (read.fixed_in (members_view members.old)) }
{
    let count = required::<Any, u32>(alloc, members, path, "count")?;
    let none = ConfigDuration::from_nanos(0);
    let delay = defaulted::<Any, ConfigDuration>(alloc, members, path, "delay", none)?;
    let jitter = defaulted::<Any, bool>(alloc, members, path, "jitter", false)?;
    if varies_nothing(delay, jitter) {
        let expected = "false, or a delay above 0 beside it";
        return Err(refused_below(alloc, path, "jitter", members.get("jitter"), expected));
    }
    Ok(RetryPolicy::Fixed {
        count,
        delay,
        jitter,
    })
}

// Whether delays vary by chance where there are none.
fn varies_nothing(delay: ConfigDuration, jitter: bool) -> bool
    ensures { result ≡ read.varies_nothing delay jitter }
{
    jitter && delay.is_zero()
}

// Delays double.
fn exponential_in(
    alloc: Global,
    members: &mut TableMembers<'_>,
    path: &[&str],
) -> Result<RetryPolicy, ValueError>
    ensures { Gives path.now result (read.exponential_in (members_view members.old)) }
{
    let count = required::<Positive, u32>(alloc, members, path, "count")?;
    let delay = required::<Positive, ConfigDuration>(alloc, members, path, "delay")?;
    let jitter = defaulted::<Any, bool>(alloc, members, path, "jitter", false)?;
    let max_delay = optional::<Any, ConfigDuration>(alloc, members, path, "max-delay")?;
    if is_shorter(max_delay, delay) {
        let expected = "a duration not below `delay`";
        return Err(refused_below(alloc, path, "max-delay", members.get("max-delay"), expected));
    }
    Ok(RetryPolicy::Exponential {
        count,
        delay,
        jitter,
        max_delay,
    })
}

// Whether a longest delay is shorter than the first one.
fn is_shorter(longest: Option<ConfigDuration>, delay: ConfigDuration) -> bool
    ensures { result ≡ read.is_shorter longest delay }
{
    match longest {
        None => false,
        Some(longest) => longest.as_nanos() < delay.as_nanos(),
    }
}

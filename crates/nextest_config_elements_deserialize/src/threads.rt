// How many threads there are.
ghost use Rattle.std.specs.Prelude.{◌≡◌};
ghost use Rattle.toml.specs.View.{members_view, view};
ghost use Rattle.nextest_config_elements_toml.specs.Paths.{Gives};
ghost use Rattle.nextest_config_elements_deserialize.specs.Threads as read;

use crate::config_value::{ConfigValue, required, whole};
use crate::values::Any;
use nextest_config_elements_toml::{TableMembers, ValueError, refused};
use nextest_config_elements_values::{TestGroupConfig, TestThreads, ThreadsRequired};
use std::alloc::Global;
use toml::Value;

/// How many tests run at a time: an integer above 0 is that many, one below 0 is so many less than
/// there are processors, and `num-cpus` is as many as there are. An `Err` for everything else, 0
/// too.
pub fn deserialize_test_threads(
    alloc: Global,
    value: &Value,
    path: &[&str],
) -> Result<TestThreads, ValueError>
    ensures { Gives path.now result (read.test_threads_in (view value.now)) }
{
    whole::<Any, TestThreads>(alloc, value, path)
}

/// How many threads a test takes: an integer above 0, `num-cpus` or `num-test-threads`. An `Err`
/// for everything else.
pub fn deserialize_threads_required(
    alloc: Global,
    value: &Value,
    path: &[&str],
) -> Result<ThreadsRequired, ValueError>
    ensures { Gives path.now result (read.threads_required_in (view value.now)) }
{
    whole::<Any, ThreadsRequired>(alloc, value, path)
}

/// What a group of tests is set to: a table with `max-threads`, read as the number of tests that
/// run at a time. An `Err` for everything else; other keys are read past.
pub fn deserialize_test_group_config(
    alloc: Global,
    value: &Value,
    path: &[&str],
) -> Result<TestGroupConfig, ValueError>
    ensures { Gives path.now result (read.test_group_config_in (view value.now)) }
{
    match value {
        Value::Table(table) => group_in(alloc, &mut TableMembers::new(table), path),
        _ => Err(refused(alloc, path, Some(value), "a table")),
    }
}

// What a table says.
fn group_in(
    alloc: Global,
    members: &mut TableMembers<'_>,
    path: &[&str],
) -> Result<TestGroupConfig, ValueError>
    ensures { Gives path.now result (read.group_in (members_view members.old)) }
{
    Ok(TestGroupConfig {
        max_threads: required::<Any, TestThreads>(alloc, members, path, "max-threads")?,
    })
}

impl ConfigValue<Any> for TestThreads {
    ghost meaning = { read.test_threads };

    fn expected() -> &'static str {
        "an integer other than 0, or `num-cpus`"
    }

    fn from_value(value: &Value) -> Option<TestThreads> {
        match value {
            Value::Integer(number) => threads_of(*number),
            Value::String(text) => {
                if text.as_str() == "num-cpus" {
                    Some(TestThreads::NumCpus)
                } else {
                    None
                }
            }
            _ => None,
        }
    }
}

// How many tests run at a time, by a number.
fn threads_of(number: i64) -> Option<TestThreads>
    ensures { result ≡ read.threads_of number }
{
    if number < 0 {
        return Some(TestThreads::CpusLess(number.unsigned_abs() as usize));
    }
    if number > 0 {
        return Some(TestThreads::Count(number.unsigned_abs() as usize));
    }
    None
}

impl ConfigValue<Any> for ThreadsRequired {
    ghost meaning = { read.threads_required };

    fn expected() -> &'static str {
        "an integer from 1 to 9223372036854775807, `num-cpus` or `num-test-threads`"
    }

    fn from_value(value: &Value) -> Option<ThreadsRequired> {
        match value {
            Value::Integer(number) => match usize::try_from(*number) {
                Ok(count) if count > 0 => Some(ThreadsRequired::Count(count)),
                _ => None,
            },
            Value::String(text) => threads_named(text.as_str()),
            _ => None,
        }
    }
}

// How many threads a test takes, by a word.
fn threads_named(word: &str) -> Option<ThreadsRequired>
    ensures { result ≡ read.threads_named word.now }
{
    match word {
        "num-cpus" => Some(ThreadsRequired::NumCpus),
        "num-test-threads" => Some(ThreadsRequired::NumTestThreads),
        _ => None,
    }
}

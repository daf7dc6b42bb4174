// Values that have parts of their own, or that take memory.
ghost use Rattle.toml.specs.Data.{Data};
ghost use Rattle.toml.specs.View.{view};
ghost use Rattle.nextest_config_elements_toml.specs.Paths.{Gives};
ghost use Rattle.nextest_config_elements_toml.specs.Reading.{Reading};
ghost use Rattle.nextest_config_elements_deserialize.specs.Keys.{texts_of};
ghost use Rattle.nextest_config_elements_deserialize.specs.Limits.{fail_fast_in};
ghost use Rattle.nextest_config_elements_deserialize.specs.Names.{test_group_in};
ghost use Rattle.nextest_config_elements_deserialize.specs.Retries.{retry_policy_in};
ghost use Rattle.nextest_config_elements_deserialize.specs.Timeouts.{global_timeout_in, leak_timeout_in, slow_timeout_in};

use crate::fail_fast::deserialize_fail_fast;
use crate::names::deserialize_test_group;
use crate::retries::deserialize_retry_policy;
use crate::text_values::deserialize_texts;
use crate::timeouts::{
    deserialize_global_timeout, deserialize_leak_timeout, deserialize_slow_timeout,
};
use nextest_config_elements_choices::MaxFail;
use nextest_config_elements_identifiers::TestGroup;
use nextest_config_elements_toml::ValueError;
use nextest_config_elements_values::{GlobalTimeout, LeakTimeout, RetryPolicy, SlowTimeout};
use nextest_text::{Listing, Text};
use std::alloc::Global;
use toml::Value;

/// A value that has parts of its own, or that takes memory, by the reader of its type.
pub trait DeserializeValue: Drop {
    // How it is read.
    ghost reading: { Data → Reading Self };

    /// What a value at a path is read as.
    fn deserialize(alloc: Global, value: &Value, path: &[&str]) -> Result<Self, ValueError>
        ensures { Gives path.now result (reading (view value.now)) };
}

impl DeserializeValue for GlobalTimeout {
    ghost reading = { global_timeout_in };

    fn deserialize(
        alloc: Global,
        value: &Value,
        path: &[&str],
    ) -> Result<GlobalTimeout, ValueError> {
        deserialize_global_timeout(alloc, value, path)
    }
}

impl DeserializeValue for LeakTimeout {
    ghost reading = { leak_timeout_in };

    fn deserialize(alloc: Global, value: &Value, path: &[&str]) -> Result<LeakTimeout, ValueError> {
        deserialize_leak_timeout(alloc, value, path)
    }
}

impl DeserializeValue for SlowTimeout {
    ghost reading = { slow_timeout_in };

    fn deserialize(alloc: Global, value: &Value, path: &[&str]) -> Result<SlowTimeout, ValueError> {
        deserialize_slow_timeout(alloc, value, path)
    }
}

impl DeserializeValue for RetryPolicy {
    ghost reading = { retry_policy_in };

    fn deserialize(alloc: Global, value: &Value, path: &[&str]) -> Result<RetryPolicy, ValueError> {
        deserialize_retry_policy(alloc, value, path)
    }
}

impl DeserializeValue for MaxFail {
    ghost reading = { fail_fast_in };

    fn deserialize(alloc: Global, value: &Value, path: &[&str]) -> Result<MaxFail, ValueError> {
        deserialize_fail_fast(alloc, value, path)
    }
}

impl DeserializeValue for TestGroup {
    ghost reading = { test_group_in };

    fn deserialize(alloc: Global, value: &Value, path: &[&str]) -> Result<TestGroup, ValueError> {
        deserialize_test_group(alloc, value, path)
    }
}

impl DeserializeValue for Listing<Text> {
    ghost reading = { texts_of };

    fn deserialize(
        alloc: Global,
        value: &Value,
        path: &[&str],
    ) -> Result<Listing<Text>, ValueError> {
        deserialize_texts(alloc, value, path)
    }
}

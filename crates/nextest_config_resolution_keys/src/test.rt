// The keys that tell how a test is run.
ghost use Rattle.nextest_config_resolution_keys.specs.Test as keys;

use crate::bench::BenchSlowTimeoutKey;
use crate::config_key::{ConfigKey, HasFallback};
use crate::from_keys::FromKeys;
use crate::has_key::{HasKey, KeyValues, ListedKey};
use crate::key_list::KeyList;
use nextest_config_elements_choices::{FailWeight, FlakyResult, LeakTimeoutResult};
use nextest_config_elements_deserialize::{
    deserialize_fail_weight, deserialize_flaky_result, deserialize_leak_timeout,
    deserialize_retry_policy, deserialize_slow_timeout, deserialize_threads_required,
};
use nextest_config_elements_toml::ValueError;
use nextest_config_elements_values::{
    ConfigDuration, LeakTimeout, RetryPolicy, SlowTimeout, ThreadsRequired,
};
use std::alloc::Global;
use toml::Value;

/// `fail-weight`: how much a test weighs where it fails. Where nothing sets it: 1, so that what
/// failing tests weigh together is their number.
pub struct FailWeightKey;

impl ConfigKey for FailWeightKey {
    type Value = FailWeight;

    ghost key = { keys.fail_weight };

    fn path() -> &'static [&'static str] {
        &["fail-weight"]
    }

    fn read(alloc: Global, value: &Value) -> Result<FailWeight, ValueError> {
        deserialize_fail_weight(alloc, value, &[])
    }
}

impl HasFallback for FailWeightKey {
    ghost fallback = { keys.fail_weight_fallback };

    fn fallback() -> FailWeight {
        FailWeight::default()
    }
}

impl HasKey<FailWeightKey> for TestValues {
    ghost use Rattle.nextest_config_resolution_keys.specs.Test.{test_read};

    ghost value = { λ it. it.fail_weight };

    ghost reads = { λ given it is. (test_read given it is).fail_weight };

    fn value(&self) -> Option<&FailWeight> {
        self.fail_weight.as_ref()
    }
}

impl ListedKey for FailWeightKey {
    type Values = TestValues;
}

/// `flaky-result`: what becomes of a test where it passes on a later attempt than its first. Where
/// nothing sets it, it passes.
pub struct FlakyResultKey;

impl ConfigKey for FlakyResultKey {
    type Value = FlakyResult;

    ghost key = { keys.flaky_result };

    fn path() -> &'static [&'static str] {
        &["flaky-result"]
    }

    fn read(alloc: Global, value: &Value) -> Result<FlakyResult, ValueError> {
        deserialize_flaky_result(alloc, value, &[])
    }
}

impl HasFallback for FlakyResultKey {
    ghost fallback = { keys.flaky_result_fallback };

    fn fallback() -> FlakyResult {
        FlakyResult::Pass
    }
}

impl HasKey<FlakyResultKey> for TestValues {
    ghost use Rattle.nextest_config_resolution_keys.specs.Test.{test_read};

    ghost value = { λ it. it.flaky_result };

    ghost reads = { λ given it is. (test_read given it is).flaky_result };

    fn value(&self) -> Option<&FlakyResult> {
        self.flaky_result.as_ref()
    }
}

impl ListedKey for FlakyResultKey {
    type Values = TestValues;
}

/// `leak-timeout`: how long handles may stay open behind a test. Where nothing sets it: a tenth of
/// a second, and a test that leaves handles open for longer passes.
pub struct LeakTimeoutKey;

impl ConfigKey for LeakTimeoutKey {
    type Value = LeakTimeout;

    ghost key = { keys.leak_timeout };

    fn path() -> &'static [&'static str] {
        &["leak-timeout"]
    }

    fn read(alloc: Global, value: &Value) -> Result<LeakTimeout, ValueError> {
        deserialize_leak_timeout(alloc, value, &[])
    }
}

impl HasFallback for LeakTimeoutKey {
    ghost fallback = { keys.leak_timeout_fallback };

    fn fallback() -> LeakTimeout {
        LeakTimeout {
            period: ConfigDuration::from_nanos(100_000_000),
            result: LeakTimeoutResult::Pass,
        }
    }
}

impl HasKey<LeakTimeoutKey> for TestValues {
    ghost use Rattle.nextest_config_resolution_keys.specs.Test.{test_read};

    ghost value = { λ it. it.leak_timeout };

    ghost reads = { λ given it is. (test_read given it is).leak_timeout };

    fn value(&self) -> Option<&LeakTimeout> {
        self.leak_timeout.as_ref()
    }
}

impl ListedKey for LeakTimeoutKey {
    type Values = TestValues;
}

/// `retries`: how a test is tried again. Where nothing sets it, it is not.
pub struct RetriesKey;

impl ConfigKey for RetriesKey {
    type Value = RetryPolicy;

    ghost key = { keys.retries };

    fn path() -> &'static [&'static str] {
        &["retries"]
    }

    fn read(alloc: Global, value: &Value) -> Result<RetryPolicy, ValueError> {
        deserialize_retry_policy(alloc, value, &[])
    }
}

impl HasFallback for RetriesKey {
    ghost fallback = { keys.retries_fallback };

    fn fallback() -> RetryPolicy {
        RetryPolicy::new_without_delay(0)
    }
}

impl HasKey<RetriesKey> for TestValues {
    ghost use Rattle.nextest_config_resolution_keys.specs.Test.{test_read};

    ghost value = { λ it. it.retries };

    ghost reads = { λ given it is. (test_read given it is).retries };

    fn value(&self) -> Option<&RetryPolicy> {
        self.retries.as_ref()
    }
}

impl ListedKey for RetriesKey {
    type Values = TestValues;
}

/// `slow-timeout`: when a test is slow, and when it is ended for that. Where nothing sets it: after
/// a minute, and nothing is ended for that.
pub struct SlowTimeoutKey;

impl ConfigKey for SlowTimeoutKey {
    type Value = SlowTimeout;

    ghost key = { keys.slow_timeout };

    fn path() -> &'static [&'static str] {
        &["slow-timeout"]
    }

    fn read(alloc: Global, value: &Value) -> Result<SlowTimeout, ValueError> {
        deserialize_slow_timeout(alloc, value, &[])
    }
}

impl HasFallback for SlowTimeoutKey {
    ghost fallback = { keys.slow_timeout_fallback };

    fn fallback() -> SlowTimeout {
        SlowTimeout::after(ConfigDuration::from_nanos(60_000_000_000))
    }
}

impl HasKey<SlowTimeoutKey> for TestValues {
    ghost use Rattle.nextest_config_resolution_keys.specs.Test.{test_read};

    ghost value = { λ it. it.slow_timeout };

    ghost reads = { λ given it is. (test_read given it is).slow_timeout };

    fn value(&self) -> Option<&SlowTimeout> {
        self.slow_timeout.as_ref()
    }
}

impl ListedKey for SlowTimeoutKey {
    type Values = TestValues;
}

/// `threads-required`: how many threads a test takes. Where nothing sets it: one.
pub struct ThreadsRequiredKey;

impl ConfigKey for ThreadsRequiredKey {
    type Value = ThreadsRequired;

    ghost key = { keys.threads_required };

    fn path() -> &'static [&'static str] {
        &["threads-required"]
    }

    fn read(alloc: Global, value: &Value) -> Result<ThreadsRequired, ValueError> {
        deserialize_threads_required(alloc, value, &[])
    }
}

impl HasFallback for ThreadsRequiredKey {
    ghost fallback = { keys.threads_required_fallback };

    fn fallback() -> ThreadsRequired {
        ThreadsRequired::Count(1)
    }
}

impl HasKey<ThreadsRequiredKey> for TestValues {
    ghost use Rattle.nextest_config_resolution_keys.specs.Test.{test_read};

    ghost value = { λ it. it.threads_required };

    ghost reads = { λ given it is. (test_read given it is).threads_required };

    fn value(&self) -> Option<&ThreadsRequired> {
        self.threads_required.as_ref()
    }
}

impl ListedKey for ThreadsRequiredKey {
    type Values = TestValues;
}

/// The keys that tell how a test is run. Profiles and overrides have them.
pub type TestKeys = (
    BenchSlowTimeoutKey,
    (
        FailWeightKey,
        (
            FlakyResultKey,
            (
                LeakTimeoutKey,
                (RetriesKey, (SlowTimeoutKey, (ThreadsRequiredKey, ()))),
            ),
        ),
    ),
);

/// The values of these keys, as a table has them. Each is `None` where its key is left out.
pub struct TestValues {
    /// `bench.slow-timeout`: when a benchmark is slow, and when it is ended for that.
    pub bench_slow_timeout: Option<SlowTimeout>,
    /// `fail-weight`: how much a test weighs where it fails.
    pub fail_weight: Option<FailWeight>,
    /// `flaky-result`: what becomes of a test where it passes on a later attempt.
    pub flaky_result: Option<FlakyResult>,
    /// `leak-timeout`: how long handles may stay open behind a test.
    pub leak_timeout: Option<LeakTimeout>,
    /// `retries`: how a test is tried again.
    pub retries: Option<RetryPolicy>,
    /// `slow-timeout`: when a test is slow, and when it is ended for that.
    pub slow_timeout: Option<SlowTimeout>,
    /// `threads-required`: how many threads a test takes.
    pub threads_required: Option<ThreadsRequired>,
}

// One call drops it, whoever holds it.
impl Drop for TestValues {
    fn drop(self) {
        let Self {
            bench_slow_timeout: _,
            fail_weight: _,
            flaky_result: _,
            leak_timeout: _,
            retries: _,
            slow_timeout: _,
            threads_required: _,
        } = self;
    }
}

impl KeyValues for TestValues {
    ghost use Rattle.nextest_config_resolution_keys.specs.Test.{test_in};

    ghost reading = { test_in };
}

impl FromKeys<TestKeys> for TestValues {
    ghost use Rattle.nextest_config_resolution_keys.specs.Test.{test_values};

    ghost made = { test_values };

    fn from_values(_alloc: Global, values: <TestKeys as KeyList>::Values) -> TestValues {
        let (
            bench_slow_timeout,
            (
                fail_weight,
                (flaky_result, (leak_timeout, (retries, (slow_timeout, (threads_required, ()))))),
            ),
        ) = values;
        TestValues {
            bench_slow_timeout,
            fail_weight,
            flaky_result,
            leak_timeout,
            retries,
            slow_timeout,
            threads_required,
        }
    }
}

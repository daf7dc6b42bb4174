// The keys that tell how a run goes.
ghost use Rattle.nextest_config_resolution_keys.specs.Run as keys;

use crate::bench::thirty_years;
use crate::config_key::{ConfigKey, HasFallback};
use crate::has_key::{HasKey, ListedKey};
use crate::own::OwnValues;
use nextest_config_elements_choices::MaxFail;
use nextest_config_elements_deserialize::{
    deserialize_fail_fast, deserialize_global_timeout, deserialize_test_threads,
};
use nextest_config_elements_toml::ValueError;
use nextest_config_elements_values::{GlobalTimeout, TestThreads};
use std::alloc::Global;
use toml::Value;

/// `fail-fast`: when failing tests stop a run. The first failing test stops a run where nothing
/// sets it, and the run waits for what runs.
pub struct FailFastKey;

impl ConfigKey for FailFastKey {
    type Value = MaxFail;

    ghost key = { keys.fail_fast };

    fn path() -> &'static [&'static str] {
        &["fail-fast"]
    }

    fn read(alloc: Global, value: &Value) -> Result<MaxFail, ValueError> {
        deserialize_fail_fast(alloc, value, &[])
    }
}

impl HasFallback for FailFastKey {
    ghost fallback = { keys.fail_fast_fallback };

    fn fallback() -> MaxFail {
        MaxFail::from_fail_fast(true)
    }
}

impl HasKey<FailFastKey> for OwnValues {
    ghost use Rattle.nextest_config_resolution_keys.specs.Own.{own_read};

    ghost value = { λ it. it.fail_fast };

    ghost reads = { λ given it is. (own_read given it is).fail_fast };

    fn value(&self) -> Option<&MaxFail> {
        self.fail_fast.as_ref()
    }
}

impl ListedKey for FailFastKey {
    type Values = OwnValues;
}

/// `global-timeout`: how long a run may take. Where nothing sets it: thirty years.
pub struct GlobalTimeoutKey;

impl ConfigKey for GlobalTimeoutKey {
    type Value = GlobalTimeout;

    ghost key = { keys.global_timeout };

    fn path() -> &'static [&'static str] {
        &["global-timeout"]
    }

    fn read(alloc: Global, value: &Value) -> Result<GlobalTimeout, ValueError> {
        deserialize_global_timeout(alloc, value, &[])
    }
}

impl HasFallback for GlobalTimeoutKey {
    ghost fallback = { keys.global_timeout_fallback };

    fn fallback() -> GlobalTimeout {
        GlobalTimeout {
            period: thirty_years(),
        }
    }
}

impl HasKey<GlobalTimeoutKey> for OwnValues {
    ghost use Rattle.nextest_config_resolution_keys.specs.Own.{own_read};

    ghost value = { λ it. it.global_timeout };

    ghost reads = { λ given it is. (own_read given it is).global_timeout };

    fn value(&self) -> Option<&GlobalTimeout> {
        self.global_timeout.as_ref()
    }
}

impl ListedKey for GlobalTimeoutKey {
    type Values = OwnValues;
}

/// `test-threads`: how many tests run at a time. Where nothing sets it: as many as there are
/// processors.
pub struct TestThreadsKey;

impl ConfigKey for TestThreadsKey {
    type Value = TestThreads;

    ghost key = { keys.test_threads };

    fn path() -> &'static [&'static str] {
        &["test-threads"]
    }

    fn read(alloc: Global, value: &Value) -> Result<TestThreads, ValueError> {
        deserialize_test_threads(alloc, value, &[])
    }
}

impl HasFallback for TestThreadsKey {
    ghost fallback = { keys.test_threads_fallback };

    fn fallback() -> TestThreads {
        TestThreads::NumCpus
    }
}

impl HasKey<TestThreadsKey> for OwnValues {
    ghost use Rattle.nextest_config_resolution_keys.specs.Own.{own_read};

    ghost value = { λ it. it.test_threads };

    ghost reads = { λ given it is. (own_read given it is).test_threads };

    fn value(&self) -> Option<&TestThreads> {
        self.test_threads.as_ref()
    }
}

impl ListedKey for TestThreadsKey {
    type Values = OwnValues;
}

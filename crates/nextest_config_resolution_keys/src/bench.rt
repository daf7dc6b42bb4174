// The keys in the table `bench`.
ghost use Rattle.std.specs.Prelude.{◌≡◌};
ghost use Rattle.nextest_config_resolution_keys.specs.Bench as keys;

use crate::config_key::{ConfigKey, HasFallback};
use crate::has_key::{HasKey, ListedKey};
use crate::own::OwnValues;
use crate::test::TestValues;
use nextest_config_elements_deserialize::{deserialize_global_timeout, deserialize_slow_timeout};
use nextest_config_elements_toml::ValueError;
use nextest_config_elements_values::{ConfigDuration, GlobalTimeout, SlowTimeout};
use std::alloc::Global;
use toml::Value;

/// `bench.global-timeout`: how long a run of benchmarks may take. Where nothing sets it: thirty
/// years.
pub struct BenchGlobalTimeoutKey;

impl ConfigKey for BenchGlobalTimeoutKey {
    type Value = GlobalTimeout;

    ghost key = { keys.bench_global_timeout };

    fn path() -> &'static [&'static str] {
        &["bench", "global-timeout"]
    }

    fn read(alloc: Global, value: &Value) -> Result<GlobalTimeout, ValueError> {
        deserialize_global_timeout(alloc, value, &[])
    }
}

impl HasFallback for BenchGlobalTimeoutKey {
    ghost fallback = { keys.bench_global_timeout_fallback };

    fn fallback() -> GlobalTimeout {
        GlobalTimeout {
            period: thirty_years(),
        }
    }
}

impl HasKey<BenchGlobalTimeoutKey> for OwnValues {
    ghost use Rattle.nextest_config_resolution_keys.specs.Own.{own_read};

    ghost value = { λ it. it.bench_global_timeout };

    ghost reads = { λ given it is. (own_read given it is).bench_global_timeout };

    fn value(&self) -> Option<&GlobalTimeout> {
        self.bench_global_timeout.as_ref()
    }
}

impl ListedKey for BenchGlobalTimeoutKey {
    type Values = OwnValues;
}

/// `bench.slow-timeout`: when a benchmark is slow, and when it is ended for that. Where nothing
/// sets it: after thirty years, and nothing is ended for that.
pub struct BenchSlowTimeoutKey;

impl ConfigKey for BenchSlowTimeoutKey {
    type Value = SlowTimeout;

    ghost key = { keys.bench_slow_timeout };

    fn path() -> &'static [&'static str] {
        &["bench", "slow-timeout"]
    }

    fn read(alloc: Global, value: &Value) -> Result<SlowTimeout, ValueError> {
        deserialize_slow_timeout(alloc, value, &[])
    }
}

impl HasFallback for BenchSlowTimeoutKey {
    ghost fallback = { keys.bench_slow_timeout_fallback };

    fn fallback() -> SlowTimeout {
        SlowTimeout::after(thirty_years())
    }
}

impl HasKey<BenchSlowTimeoutKey> for TestValues {
    ghost use Rattle.nextest_config_resolution_keys.specs.Test.{test_read};

    ghost value = { λ it. it.bench_slow_timeout };

    ghost reads = { λ given it is. (test_read given it is).bench_slow_timeout };

    fn value(&self) -> Option<&SlowTimeout> {
        self.bench_slow_timeout.as_ref()
    }
}

impl ListedKey for BenchSlowTimeoutKey {
    type Values = TestValues;
}

// Thirty years, of 365.25 days each.
pub(crate) fn thirty_years() -> ConfigDuration
    ensures { result ≡ keys.thirty_years }
{
    ConfigDuration::from_nanos(946_728_000_000_000_000)
}

// The keys that profiles alone have.
ghost use Rattle.nextest_config_resolution_keys.specs.Own as keys;

use crate::bench::BenchGlobalTimeoutKey;
use crate::config_key::ConfigKey;
use crate::from_keys::FromKeys;
use crate::has_key::{HasKey, KeyValues, ListedKey};
use crate::junit::{JunitPathKey, JunitReportNameKey};
use crate::key_list::KeyList;
use crate::output::{FinalStatusLevelKey, StatusLevelKey};
use crate::reading::read_text;
use crate::run::{FailFastKey, GlobalTimeoutKey, TestThreadsKey};
use nextest_config_elements_choices::{FinalStatusLevel, MaxFail, StatusLevel};
use nextest_config_elements_toml::ValueError;
use nextest_config_elements_values::{GlobalTimeout, TestThreads};
use nextest_text::Text;
use std::alloc::Global;
use toml::Value;

/// `inherits`: the name of the profile that holds where this one says nothing.
pub struct InheritsKey;

impl ConfigKey for InheritsKey {
    type Value = Text;

    ghost key = { keys.inherits };

    fn path() -> &'static [&'static str] {
        &["inherits"]
    }

    fn read(alloc: Global, value: &Value) -> Result<Text, ValueError> {
        read_text(alloc, value)
    }
}

impl HasKey<InheritsKey> for OwnValues {
    ghost use Rattle.nextest_config_resolution_keys.specs.Own.{own_read};

    ghost value = { λ it. it.inherits };

    ghost reads = { λ given it is. (own_read given it is).inherits };

    fn value(&self) -> Option<&Text> {
        self.inherits.as_ref()
    }
}

impl ListedKey for InheritsKey {
    type Values = OwnValues;
}

/// The keys that profiles alone have: of a run, of the profile itself, and of the report.
pub type OwnKeys = (
    BenchGlobalTimeoutKey,
    (
        FailFastKey,
        (
            FinalStatusLevelKey,
            (
                GlobalTimeoutKey,
                (
                    InheritsKey,
                    (
                        JunitPathKey,
                        (JunitReportNameKey, (StatusLevelKey, (TestThreadsKey, ()))),
                    ),
                ),
            ),
        ),
    ),
);

/// The values of these keys, as a table has them. Each is `None` where its key is left out.
pub struct OwnValues {
    /// `bench.global-timeout`: how long a run of benchmarks may take.
    pub bench_global_timeout: Option<GlobalTimeout>,
    /// `fail-fast`: when failing tests stop a run.
    pub fail_fast: Option<MaxFail>,
    /// `final-status-level`: which statuses are shown at the end of a run.
    pub final_status_level: Option<FinalStatusLevel>,
    /// `global-timeout`: how long a run may take.
    pub global_timeout: Option<GlobalTimeout>,
    /// `inherits`: the name of the profile that holds where this one says nothing.
    pub inherits: Option<Text>,
    /// `junit.path`: the file of the report.
    pub junit_path: Option<Text>,
    /// `junit.report-name`: the name that stands in the report.
    pub junit_report_name: Option<Text>,
    /// `status-level`: which statuses are shown while tests run.
    pub status_level: Option<StatusLevel>,
    /// `test-threads`: how many tests run at a time.
    pub test_threads: Option<TestThreads>,
}

// One call drops it, whoever holds it.
impl Drop for OwnValues {
    fn drop(self) {
        let Self {
            bench_global_timeout: _,
            fail_fast: _,
            final_status_level: _,
            global_timeout: _,
            inherits: _,
            junit_path: _,
            junit_report_name: _,
            status_level: _,
            test_threads: _,
        } = self;
    }
}

impl KeyValues for OwnValues {
    ghost use Rattle.nextest_config_resolution_keys.specs.Own.{own_in};

    ghost reading = { own_in };
}

impl FromKeys<OwnKeys> for OwnValues {
    ghost use Rattle.nextest_config_resolution_keys.specs.Own.{own_values};

    ghost made = { own_values };

    fn from_values(_alloc: Global, values: <OwnKeys as KeyList>::Values) -> OwnValues {
        let (
            bench_global_timeout,
            (
                fail_fast,
                (
                    final_status_level,
                    (
                        global_timeout,
                        (
                            inherits,
                            (junit_path, (junit_report_name, (status_level, (test_threads, ())))),
                        ),
                    ),
                ),
            ),
        ) = values;
        OwnValues {
            bench_global_timeout,
            fail_fast,
            final_status_level,
            global_timeout,
            inherits,
            junit_path,
            junit_report_name,
            status_level,
            test_threads,
        }
    }
}

//! The keys of a configuration: a type for each, with its path, what its value is read as, how it
//! is read, and the value that it has where nothing sets it; lists of such types, by which a table
//! is read once; the values of a list by the names of its keys, each lent to who asks by its key;
//! and profiles, which are read by four such lists. And the directory of the store.
#![tactic(auto)]

mod bench;
mod command;
mod config_key;
mod from_keys;
mod has_key;
mod items;
mod joining;
mod junit;
mod key_list;
mod known;
pub mod laws;
mod output;
mod own;
mod profile_config;
mod reading;
mod report;
mod run;
mod store;
mod test;

pub use bench::{BenchGlobalTimeoutKey, BenchSlowTimeoutKey};
pub use command::{CommandKeys, CommandValues, DefaultFilterKey, RunExtraArgsKey};
pub use config_key::{ConfigKey, HasFallback, read_key};
pub use from_keys::{FromKeys, deserialize_table};
pub use has_key::{HasKey, HasValues, KeyValues, ListedKey, get_value};
pub use items::deserialize_items;
pub use junit::{
    JunitFlakyFailStatusKey, JunitPathKey, JunitReportNameKey, JunitReportSkippedKey,
    JunitStoreFailureOutputKey, JunitStoreSuccessOutputKey, junit_report_name_fallback,
};
pub use key_list::{Both, DeserializeKeys, KeyList};
pub use known::{Known, KnownKeys};
pub use output::{FailureOutputKey, FinalStatusLevelKey, StatusLevelKey, SuccessOutputKey};
pub use own::{InheritsKey, OwnKeys, OwnValues};
pub use profile_config::{
    ProfileConfig, ProfileKeys, deserialize_profile, deserialize_profile_value,
};
pub use reading::read_text;
pub use report::{ReportKeys, ReportValues};
pub use run::{FailFastKey, GlobalTimeoutKey, TestThreadsKey};
pub use store::deserialize_store_dir;
pub use test::{
    FailWeightKey, FlakyResultKey, LeakTimeoutKey, RetriesKey, SlowTimeoutKey, TestKeys,
    TestValues, ThreadsRequiredKey,
};

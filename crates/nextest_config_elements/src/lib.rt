//! The values of the configuration: what its keys are set to, the names in it, and how each value
//! is read from a TOML value.
//!
//! What the contracts of these speak of is handed on as `Rattle.nextest_config_elements.specs`.
#![tactic(auto)]

pub mod laws;

pub use nextest_config_elements_choices::{
    BadText, FailWeight, FailWeightOutOfRange, FinalStatusLevel, FlakyResult, LeakTimeoutResult,
    MaxFail, NextestRunMode, SlowTimeoutResult, StatusLevel, TerminateMode, TestOutputDisplay,
};
pub use nextest_config_elements_deserialize::{
    Any, ConfigValue, Positive, defaulted, deserialize_config_identifier,
    deserialize_custom_test_group, deserialize_fail_fast, deserialize_fail_weight,
    deserialize_final_status_level, deserialize_flaky_result, deserialize_global_timeout,
    deserialize_junit_flaky_fail_status, deserialize_leak_timeout, deserialize_leak_timeout_result,
    deserialize_report_skip_policy, deserialize_retry_policy, deserialize_slow_timeout,
    deserialize_slow_timeout_result, deserialize_status_level, deserialize_terminate_mode,
    deserialize_test_group, deserialize_test_group_config, deserialize_test_output_display,
    deserialize_test_priority, deserialize_test_threads, deserialize_threads_required,
    deserialize_tool_name, optional, required, whole,
};
pub use nextest_config_elements_identifiers::{
    BadToolConfig, ConfigIdentifier, ConfigSourceKind, CustomTestGroup, InvalidIdentifier,
    TestGroup, ToolConfigFile, ToolConfigFileError, ToolName,
};
pub use nextest_config_elements_toml::{
    BadValue, KeyPath, TableMembers, ValueError, refused, refused_below,
};
pub use nextest_config_elements_values::{
    BadDuration, ConfigDuration, GlobalTimeout, JunitConfig, JunitFlakyFailStatus, LeakTimeout,
    MismatchReason, ReportSkipPolicy, RetryPolicy, SlowTimeout, TestGroupConfig, TestPriority,
    TestPriorityOutOfRange, TestThreads, ThreadsRequired, parse_duration,
};
pub use nextest_config_elements_versions::{
    AskedVersions, ConfigExperimental, ExperimentalConfig, FeatureSet, NextestVersionConfig,
    NextestVersionEval, NextestVersionReq, UnknownFeatures, VersionDemand, VersionOnlyConfig,
    VersionOnlyError, VersionOrigin, VersionSource, VersionSourceFault, VersionSourceReason,
    deserialize_experimental, deserialize_nextest_version,
};
pub use nextest_text::{Listing, Text};
pub use nextest_version::{PlainVersion, VersionError};

//! How each value of a configuration is read from a TOML value.
//!
//! A reader is handed a value and its path. Of a table it looks at the keys that it knows by the
//! order of their bytes, and reads past all others; the first value that is none is refused with
//! its path, and a key that is missing at its own.
#![tactic(auto)]

mod backoff;
mod config_value;
mod deserialize_value;
mod fail_fast;
mod fail_weight;
mod junit;
pub mod laws;
mod levels;
mod limit;
mod names;
mod priority;
mod retries;
mod text_values;
mod threads;
mod timeouts;
mod values;
mod values_below;
mod words;

pub use config_value::{ConfigValue, defaulted, optional, required, whole};
pub use deserialize_value::DeserializeValue;
pub use fail_fast::deserialize_fail_fast;
pub use fail_weight::deserialize_fail_weight;
pub use junit::{deserialize_junit_flaky_fail_status, deserialize_report_skip_policy};
pub use levels::{
    deserialize_final_status_level, deserialize_flaky_result, deserialize_leak_timeout_result,
    deserialize_slow_timeout_result, deserialize_status_level, deserialize_terminate_mode,
    deserialize_test_output_display,
};
pub use names::{
    deserialize_config_identifier, deserialize_custom_test_group, deserialize_test_group,
    deserialize_tool_name,
};
pub use priority::deserialize_test_priority;
pub use retries::deserialize_retry_policy;
pub use text_values::{deserialize_texts, optional_text};
pub use threads::{
    deserialize_test_group_config, deserialize_test_threads, deserialize_threads_required,
};
pub use timeouts::{
    deserialize_global_timeout, deserialize_leak_timeout, deserialize_slow_timeout,
};
pub use values::{Any, Positive};
pub use values_below::{below, defaulted_value, optional_value, required_value};

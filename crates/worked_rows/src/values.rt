// Values of the configuration.
use crate::page::Page;
use crate::parts::two;
use crate::{ok, some};
use nextest_config_elements::{
    Any, ConfigValue, deserialize_config_identifier, deserialize_custom_test_group,
    deserialize_fail_fast, deserialize_fail_weight, deserialize_final_status_level,
    deserialize_flaky_result, deserialize_global_timeout, deserialize_junit_flaky_fail_status,
    deserialize_leak_timeout, deserialize_leak_timeout_result, deserialize_report_skip_policy,
    deserialize_retry_policy, deserialize_slow_timeout, deserialize_slow_timeout_result,
    deserialize_status_level, deserialize_terminate_mode, deserialize_test_group,
    deserialize_test_group_config, deserialize_test_output_display, deserialize_test_priority,
    deserialize_test_threads, deserialize_threads_required, deserialize_tool_name,
};
use std::alloc::Global;
use toml::{Table, Value};

// What stands in TOML.
pub(crate) fn toml_value(alloc: Global, text: &str) -> Option<Value> {
    Value::from_str(alloc, text).ok()
}

// What becomes of a flaky test, a level or a display, by its word.
pub(crate) fn word_as<T: ConfigValue<Any>>(alloc: Global, word: &str) -> Option<T> {
    T::from_value(&Value::String(ok!(String::from_str(alloc, word))))
}

// A kind of value and what stands in TOML behind `k = `: the value of that kind that it is, or why
// it is refused.
pub(crate) fn values(page: &mut Page, input: &str) -> Option<()> {
    let (kind, text) = two(input, " ");
    let table = some!(table_with(page.alloc, text));
    value_read(page, kind, some!(table.get("k")))
}

fn table_with(alloc: Global, text: &str) -> Option<Table> {
    let document = ok!(format!(in alloc; "k = {text}"));
    toml::table_from_str(alloc, document.as_str()).ok()
}

// A value of a kind.
fn value_read(page: &mut Page, kind: &str, value: &Value) -> Option<()> {
    let (alloc, path) = (page.alloc, &["k"]);
    match kind {
        "retries" => page.debugged(deserialize_retry_policy(alloc, value, path)),
        "fail-fast" => page.debugged(deserialize_fail_fast(alloc, value, path)),
        "slow-timeout" => page.debugged(deserialize_slow_timeout(alloc, value, path)),
        "leak-timeout" => page.debugged(deserialize_leak_timeout(alloc, value, path)),
        "global-timeout" => page.debugged(deserialize_global_timeout(alloc, value, path)),
        "test-threads" => page.debugged(deserialize_test_threads(alloc, value, path)),
        "threads-required" => page.debugged(deserialize_threads_required(alloc, value, path)),
        _ => return name_read(page, kind, value, path),
    }
    Some(())
}

// A value of a kind that is a name, a group's setting, a priority or a weight.
fn name_read(page: &mut Page, kind: &str, value: &Value, path: &[&str]) -> Option<()> {
    let alloc = page.alloc;
    match kind {
        "test-group-config" => page.debugged(deserialize_test_group_config(alloc, value, path)),
        "priority" => page.debugged(deserialize_test_priority(alloc, value, path)),
        "fail-weight" => page.debugged(deserialize_fail_weight(alloc, value, path)),
        "tool-name" => page.debugged(deserialize_tool_name(alloc, value, path)),
        "config-identifier" => page.debugged(deserialize_config_identifier(alloc, value, path)),
        "test-group" => page.debugged(deserialize_test_group(alloc, value, path)),
        "custom-test-group" => page.debugged(deserialize_custom_test_group(alloc, value, path)),
        _ => return word_read(page, kind, value, path),
    }
    Some(())
}

// A value of a kind that is one of some words.
fn word_read(page: &mut Page, kind: &str, value: &Value, path: &[&str]) -> Option<()> {
    let alloc = page.alloc;
    match kind {
        "flaky-result" => page.debugged(deserialize_flaky_result(alloc, value, path)),
        "status-level" => page.debugged(deserialize_status_level(alloc, value, path)),
        "final-status-level" => page.debugged(deserialize_final_status_level(alloc, value, path)),
        "output-display" => page.debugged(deserialize_test_output_display(alloc, value, path)),
        "report-skipped" => page.debugged(deserialize_report_skip_policy(alloc, value, path)),
        "flaky-fail-status" => {
            page.debugged(deserialize_junit_flaky_fail_status(alloc, value, path));
        }
        _ => return mode_read(page, kind, value, path),
    }
    Some(())
}

// A value of a kind that is how a run ends, or what becomes of a process.
fn mode_read(page: &mut Page, kind: &str, value: &Value, path: &[&str]) -> Option<()> {
    let alloc = page.alloc;
    match kind {
        "terminate-mode" => page.debugged(deserialize_terminate_mode(alloc, value, path)),
        "slow-result" => page.debugged(deserialize_slow_timeout_result(alloc, value, path)),
        "leak-result" => page.debugged(deserialize_leak_timeout_result(alloc, value, path)),
        _ => return None,
    }
    Some(())
}

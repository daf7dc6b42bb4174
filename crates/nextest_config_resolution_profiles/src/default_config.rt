// The text of the built-in configuration.

/// The lowest source of every configuration, as it is written: what `built_in` answers as a tree.
pub const DEFAULT_CONFIG: &str = r#"[store]
dir = "target/nextest"
[profile.default]
default-filter = "all()"
retries = 0
flaky-result = "pass"
test-threads = "num-cpus"
threads-required = 1
run-extra-args = []
status-level = "pass"
final-status-level = "flaky"
failure-output = "immediate"
success-output = "never"
fail-fast = true
fail-weight = 1
slow-timeout = "60s"
global-timeout = "30y"
leak-timeout = "100ms"
bench = { slow-timeout = "30y", global-timeout = "30y" }
[profile.default.junit]
report-name = "nextest-run"
store-success-output = false
store-failure-output = true
report-skipped = "none"
flaky-fail-status = "failure"
[profile.default-miri]
"#;

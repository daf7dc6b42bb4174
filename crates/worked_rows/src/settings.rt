// The settings of a profile in words.
use crate::configs::{PlainConfig, PlainProfile};
use crate::defined::{rules_told, scripts_told};
use crate::page::{Page, Whole};
use crate::plain_filter::PlainFilter;
use crate::{ok, show};
use nextest_config_elements::{JunitConfig, NextestRunMode};
use nextest_config_resolution::ProfileError;

// A setting of a profile.
pub(crate) fn setting_told(
    page: &mut Page,
    config: &PlainConfig,
    profile: &PlainProfile<'_>,
    key: &str,
) -> Option<()> {
    match key {
        "profiles" => return names_told(page, config),
        "parents" => page.show(profile.chain().len().saturating_sub(1)),
        "store-dir" => page.show(profile.store_dir()),
        "inherits" => page.show(profile.inherits().unwrap_or("-")),
        "scripts" => scripts_told(page, config),
        "script-rules" => rules_told(page, config),
        "default-filter" => page.show(filter_text(profile.default_filter().filter)),
        "run-extra-args" => page.show_each("[", profile.run_extra_args(), "]"),
        "junit" => report_told(page, profile.junit()),
        _ => return how_runs_go(page, profile, key),
    }
    Some(())
}

// The text of a filter.
pub(crate) fn filter_text(filter: &PlainFilter) -> &str {
    match filter {
        PlainFilter::Everything => "all()",
        PlainFilter::Nothing => "none()",
        PlainFilter::Named(name) => name.as_str(),
    }
}

// A setting of how runs go.
fn how_runs_go(page: &mut Page, profile: &PlainProfile<'_>, key: &str) -> Option<()> {
    match key {
        "retries" => page.debug(profile.retries()),
        "flaky-result" => page.debug(profile.flaky_result()),
        "fail-fast" => page.debug(profile.max_fail()),
        "fail-weight" => page.debug(profile.fail_weight()),
        "leak-timeout" => page.debug(profile.leak_timeout()),
        "test-threads" => page.debug(profile.test_threads()),
        "threads-required" => page.debug(profile.threads_required()),
        _ => return how_long_or_shown(page, profile, key),
    }
    Some(())
}

// A setting of how long tests and runs may take, or of what is shown.
fn how_long_or_shown(page: &mut Page, profile: &PlainProfile<'_>, key: &str) -> Option<()> {
    let (test, benchmark) = (NextestRunMode::Test, NextestRunMode::Benchmark);
    match key {
        "slow-timeout" => page.debug(profile.slow_timeout(test)),
        "global-timeout" => page.debug(profile.global_timeout(test)),
        "bench.slow-timeout" => page.debug(profile.slow_timeout(benchmark)),
        "bench.global-timeout" => page.debug(profile.global_timeout(benchmark)),
        "status-level" => page.debug(profile.status_level()),
        "final-status-level" => page.debug(profile.final_status_level()),
        "failure-output" => page.debug(profile.failure_output()),
        "success-output" => page.debug(profile.success_output()),
        _ => return None,
    }
    Some(())
}

// The names of all profiles, each in brackets, as they are told where no profile has a name.
fn names_told(page: &mut Page, config: &PlainConfig) -> Option<()> {
    let Err(ProfileError::NotFound(told)) = config.profile(page.alloc, "\0") else {
        return None;
    };
    page.show_each("[", ok!(told.clone()).known.as_slice(), "]");
    Some(())
}

// The report, if there is one.
fn report_told(page: &mut Page, report: Option<JunitConfig<'_>>) {
    let Some(report) = report else {
        return page.show("-");
    };
    show!(page; report.path(), " ", report.report_name(), " ");
    show!(page; report.store_success_output(), " ", report.store_failure_output(), " ");
    show!(page; Whole(report.report_skipped()), " ", Whole(report.flaky_fail_status()));
}

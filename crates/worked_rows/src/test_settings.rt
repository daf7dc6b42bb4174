// What a test is run with, and where each of its settings comes from; and its scripts.
use crate::calls_again::TURNS;
use crate::configs::{BAR, PlainConfig, PlainProfile, sources_of};
use crate::defined::run_told;
use crate::page::{Page, Tell, Whole};
use crate::parts::{Word, three, two};
use crate::settings::filter_text;
use crate::{ok, show, some};
use nextest_config_elements::{FeatureSet, NextestRunMode};
use nextest_config_resolution::{
    BuildPlatforms, EnabledScript, SettingSource, TestGroupRef, TestSettings, WrapperScriptConfig,
};
use nextest_filtering::{BinaryQuery, BuildPlatform, GroupLookup, NameMatcher, TestQuery};
use nextest_text::{Listing, Text};
use std::alloc::Global;
use std::fmt::Debug;

// The settings of a test, each with where it comes from.
type Sourced<'p> = TestSettings<'p, SettingSource<'p>>;

// A profile, a mode, the platform of the test's binary, the names of host and target with commas
// between them, a test and the keys of settings, with commas between them; and then sources: what
// each setting is, and where it comes from. Features of scripts are known.
pub(crate) fn test_settings(page: &mut Page, input: &str) -> Option<()> {
    let (head, sources) = two(input, BAR);
    let sources = some!(sources_of(page.alloc, sources));
    let features = FeatureSet {
        setup_scripts: true,
        wrapper_scripts: true,
        benchmarks: false,
    };
    let config = ok!(PlainConfig::from_sources(
        page.alloc,
        "/work",
        &(),
        sources.as_slice(),
        features,
    ));
    of_config(page, &config, head)
}

fn of_config(page: &mut Page, config: &PlainConfig, head: &str) -> Option<()> {
    let (profile, mode, rest) = three(head);
    let (binary, host, rest) = three(rest);
    let (target, test_name, keys) = three(rest);
    let (mode, query) = (some!(mode_of(mode)), some!(query_of(binary, test_name)));
    let host = some!(names_of(page.alloc, host));
    let names = some!(names_of(page.alloc, target));
    let platforms = BuildPlatforms {
        host: &host,
        target: if target == "none" { None } else { Some(&names) },
    };
    let early = ok!(config.profile(page.alloc, profile));
    of_profile(
        page,
        &early.apply_build_platforms(&platforms),
        mode,
        &query,
        keys,
    )
}

// The names of a platform: `-` where nothing is known of it.
fn names_of(alloc: Global, names: &str) -> Option<Listing<Text>> {
    Word::of_word(alloc, names.strip_prefix('-').unwrap_or(names))
}

fn mode_of(word: &str) -> Option<NextestRunMode> {
    match word {
        "test" => Some(NextestRunMode::Test),
        "benchmark" => Some(NextestRunMode::Benchmark),
        _ => None,
    }
}

// The test of a binary for a platform.
fn query_of<'a>(platform: &str, test_name: &'a str) -> Option<TestQuery<'a>> {
    let platform = match platform {
        "host" => BuildPlatform::Host,
        "target" => BuildPlatform::Target,
        _ => return None,
    };
    Some(TestQuery {
        binary_query: BinaryQuery {
            package_id: "a-1",
            binary_id: "a",
            kind: "lib",
            binary_name: "a",
            platform,
        },
        test_name,
    })
}

fn of_profile(
    page: &mut Page,
    profile: &PlainProfile<'_>,
    mode: NextestRunMode,
    query: &TestQuery<'_>,
    keys: &str,
) -> Option<()> {
    let Ok(found) = profile.settings_with_source_for(page.alloc, mode, query) else {
        return None;
    };
    let Ok(settings) = found.clone() else {
        return None;
    };
    for key in keys.split(',') {
        page.separate(0, "; ");
        show!(page; key, " = ");
        some!(setting_told(page, profile, &settings, query, key));
    }
    Some(())
}

fn setting_told(
    page: &mut Page,
    profile: &PlainProfile<'_>,
    settings: &Sourced<'_>,
    query: &TestQuery<'_>,
    key: &str,
) -> Option<()> {
    match key {
        "default-filter" => default_told(page, profile),
        "list-wrapper" => list_wrapper(page, profile, &query.binary_query),
        "setup-scripts" => setup_scripts(page, profile, query),
        "without sources" => without_sources(page, profile, query),
        _ => match key.strip_prefix("in group ") {
            Some(name) => is_in_group(page, profile, query, name),
            None => how_it_runs(page, settings, key),
        },
    }
}

// A test's priority, retries and weight, which don't tell where they come from.
fn without_sources(
    page: &mut Page,
    profile: &PlainProfile<'_>,
    query: &TestQuery<'_>,
) -> Option<()> {
    for turn in TURNS {
        if let Ok(settings) = profile.settings_for(page.alloc, NextestRunMode::Test, query) {
            show!(page; Whole(settings.priority()), ", ", Whole(settings.retries()));
            show!(page; ", ", Whole(settings.fail_weight()), turn);
            return Some(());
        }
    }
    None
}

// Whether a test is in the group of a name, by the memberships that are found for it alone.
fn is_in_group(
    page: &mut Page,
    profile: &PlainProfile<'_>,
    query: &TestQuery<'_>,
    name: &str,
) -> Option<()> {
    let (tests, value) = ([*query], ok!(Text::from_str(page.alloc, name)));
    let matcher = NameMatcher::Equal {
        value,
        implicit: false,
    };
    for turn in TURNS {
        if let Ok(groups) = profile.precompute_group_memberships(page.alloc, &tests) {
            let groups = ok!(groups.clone());
            show!(page; ok!(groups.is_member_test(query, &matcher)), turn);
            return Some(());
        }
    }
    None
}

// The default filter, and the key that sets it.
fn default_told(page: &mut Page, profile: &PlainProfile<'_>) -> Option<()> {
    let found = ok!(profile.default_filter().clone());
    let place = ok!(found.display_config(page.alloc));
    show!(page; filter_text(found.filter), " from ", place);
    Some(())
}

// The wrapper script with which the tests of a binary are listed.
fn list_wrapper(
    page: &mut Page,
    profile: &PlainProfile<'_>,
    binary: &BinaryQuery<'_>,
) -> Option<()> {
    let settings = ok!(ok!(profile.list_settings_for(page.alloc, binary)).clone());
    wrapper_told(page, settings.list_wrapper());
    Some(())
}

fn wrapper_told(page: &mut Page, found: Option<&WrapperScriptConfig>) {
    match found {
        Some(config) => run_told(page, config),
        None => page.show("None"),
    }
}

// The names of the setup scripts that are enabled for a test, with commas between them; `-` where
// there is none.
fn setup_scripts(page: &mut Page, profile: &PlainProfile<'_>, query: &TestQuery<'_>) -> Option<()> {
    let (matching, start) = ([*query], page.len());
    let scripts = ok!(ok!(profile.setup_scripts(page.alloc, &matching)).clone());
    page.tell_each(start, ",", scripts.as_slice());
    page.or_none(start);
    Some(())
}

impl Tell for EnabledScript<'_> {
    fn tell(&self, page: &mut Page) {
        page.show(&self.id);
    }
}

// A setting of how a test runs, and where it comes from.
fn how_it_runs(page: &mut Page, settings: &Sourced<'_>, key: &str) -> Option<()> {
    match key {
        "priority" => sourced(page, &settings.priority),
        "threads-required" => sourced(page, &settings.threads_required),
        "run-extra-args" => {
            page.show_each("[", settings.run_extra_args.0, "]");
            source_told(page, settings.run_extra_args.1);
        }
        "run-wrapper" => {
            wrapper_told(page, settings.run_wrapper.0);
            source_told(page, settings.run_wrapper.1);
        }
        "retries" => sourced(page, &settings.retries),
        "slow-timeout" => sourced(page, &settings.slow_timeout),
        "leak-timeout" => sourced(page, &settings.leak_timeout),
        "test-group" => group_told(page, &settings.test_group),
        _ => return how_it_counts(page, settings, key),
    }
    Some(())
}

// A setting of what a failure comes to, or of what is shown of a test.
fn how_it_counts(page: &mut Page, settings: &Sourced<'_>, key: &str) -> Option<()> {
    match key {
        "flaky-result" => sourced(page, &settings.flaky_result),
        "fail-weight" => sourced(page, &settings.fail_weight),
        "success-output" => sourced(page, &settings.success_output),
        "failure-output" => sourced(page, &settings.failure_output),
        "junit.store-success-output" => sourced(page, &settings.junit_store_success_output),
        "junit.store-failure-output" => sourced(page, &settings.junit_store_failure_output),
        "junit.report-skipped" => sourced(page, &settings.junit_report_skipped),
        "junit.flaky-fail-status" => sourced(page, &settings.junit_flaky_fail_status),
        _ => return None,
    }
    Some(())
}

// A value with all that it holds, and where it comes from.
fn sourced<T: Debug>(page: &mut Page, setting: &(T, SettingSource<'_>)) {
    page.debug(&setting.0);
    source_told(page, setting.1);
}

fn group_told(page: &mut Page, setting: &(TestGroupRef<'_>, SettingSource<'_>)) {
    match setting.0 {
        TestGroupRef::Global => page.show("Global"),
        TestGroupRef::Custom(name) => {
            show!(page; "Custom(", Whole(name.as_str()), ")");
        }
    }
    source_told(page, setting.1);
}

fn source_told(page: &mut Page, source: SettingSource<'_>) {
    page.show(" from ");
    match source {
        SettingSource::Override(id) => {
            show!(page; "override ", &id.file, " ", &id.profile, " ", id.index);
        }
        SettingSource::Script(id) => {
            show!(page; "script rule ", &id.file, " ", &id.profile, " ", id.index);
        }
        SettingSource::Profile(place) => show!(page; "profile ", place),
        SettingSource::Default => page.show("default"),
    }
}

// What is asked of any filters, of any platform specs, and of configurations of both; and rows over
// those of one's own.
ghost use Rattle.std.specs.Prelude.{◌≡◌, IfOk};
ghost use Rattle.nextest_filtering_arguments.specs.declared.ban.FiltersetKind.TheVariants as purpose;
ghost use Rattle.nextest_filtering_filters.specs.Query.{test_of};
ghost use Rattle.nextest_config_resolution_profiles.specs.Config.{IsFilterIn};
ghost use Rattle.nextest_config_resolution_settings.specs.Nearest.{setting_source_of};
ghost use Rattle.worked_rows.specs.Configs.{AreRetriesOf, place_of};

use crate::configs::{BAR, sources_of};
use crate::page::{Page, Whole};
use crate::parts::{Word, two};
use crate::plain_filter::PlainFilter;
use crate::plain_spec::PlainSpec;
use crate::{ok, show, some};
use nextest_config_elements::{FeatureSet, NextestRunMode, RetryPolicy};
use nextest_config_resolution::{
    BuildPlatforms, ConfigSource, FilterError, Filters, LoadError, NextestConfig, ProfileError,
    SettingSource, SpecError, Specs,
};
use nextest_filtering::{
    BinaryQuery, BuildPlatform, Filterset, FiltersetKind, KnownGroups, PackageGraph, ParseContext,
    TestQuery,
};
use nextest_text::{Listing, Text};
use std::alloc::{AllocError, Global};

// The test of a name, of a library.
fn test_named(name: &str) -> TestQuery<'_> {
    TestQuery {
        binary_query: BinaryQuery {
            package_id: "a-1",
            binary_id: "a",
            kind: "lib",
            binary_name: "a",
            platform: BuildPlatform::Target,
        },
        test_name: name,
    }
}

// Whether the filter of an override holds on a test, beside a default filter, both by their texts.
// Where it asks nothing of tests, and so is sure of the test's binary, the test isn't asked.
fn holds<F: Filters>(
    alloc: Global,
    filter_text: Text,
    default_text: Text,
    cx: &F::Cx,
    known_groups: &KnownGroups,
    query: &TestQuery<'_>,
) -> Result<bool, FilterError>
    ensures { IfOk result (λ value. (filter default : F)
        × F.is_parsed cx.now purpose.OverrideFilter known_groups.now filter_text filter
        × F.is_parsed cx.now purpose.DefaultFilter known_groups.now default_text default
        × F.on_test filter default (test_of query.now) value) }
{
    let filter = F::parse(
        alloc,
        filter_text,
        cx,
        FiltersetKind::OverrideFilter,
        known_groups,
    )?;
    let default = F::parse(
        alloc,
        default_text,
        cx,
        FiltersetKind::DefaultFilter,
        known_groups,
    )?;
    if filter.has_runtime_leaves() {
        return Ok(filter.matches_test(alloc, query, &default)?);
    }
    match filter.matches_binary(alloc, &query.binary_query, &default)? {
        Some(sure) => Ok(sure),
        None => Ok(filter.matches_test(alloc, query, &default)?),
    }
}

// Whether the platform spec of a text holds on a platform of which this is known.
fn holds_on<S: Specs>(
    alloc: Global,
    text: &str,
    facts: &S::Facts,
) -> Result<Option<bool>, SpecError>
    ensures { IfOk result
        (λ value. (spec : S) × S.is_parsed text.now spec × (value ≡ S.value_on spec facts.now)) }
{
    let spec = S::parse(alloc, text)?;
    Ok(spec.eval(facts))
}

// How the profile of a name has a test tried again that fails, on these platforms, and the place in
// its chain of the profile that sets that, if one does; whatever filters and specs its
// configuration has. `None` where the sources are refused, or no profile has the name; want of
// memory says nothing of them.
fn retries_of<F: Filters, S: Specs>(
    alloc: Global,
    cx: &F::Cx,
    features: FeatureSet,
    sources: &[ConfigSource],
    name: &str,
    platforms: &BuildPlatforms<'_, S::Facts>,
    query: &TestQuery<'_>,
) -> Result<Option<(RetryPolicy, Option<usize>)>, AllocError>
    ensures { IfOk result
        (AreRetriesOf (IsFilterIn F.is_parsed F.has_runtime_leaves cx.now) S.is_parsed F.is_too_deep
        S.value_on F.on_test features sources.now name.now platforms.now (test_of query.now)) }
{
    let config = match NextestConfig::<F, S>::from_sources(alloc, "", cx, sources, features) {
        Ok(config) => config,
        Err(LoadError::Refused(_)) => return Ok(None),
        Err(LoadError::OutOfMemory) => return Err(AllocError),
    };
    let profile = match config.profile(alloc, name) {
        Ok(early) => early.apply_build_platforms(platforms),
        Err(ProfileError::NotFound(_)) => return Ok(None),
        Err(ProfileError::OutOfMemory) => return Err(AllocError),
    };
    match profile.settings_with_source_for(alloc, NextestRunMode::Test, query) {
        Ok(settings) => Ok(Some((settings.retries.0, place_of(settings.retries.1)))),
        Err(error) => Err(error),
    }
}

// The place in its chain of the profile that a setting comes from.
fn place_of(source: SettingSource<'_>) -> Option<usize>
    ensures { result ≡ place_of (setting_source_of source.entry) }
{
    match source {
        SettingSource::Profile(place) => Some(place),
        SettingSource::Override(_) | SettingSource::Script(_) | SettingSource::Default => None,
    }
}

// A filter and a default filter: whether the one holds on the test `slow` of a library.
fn held_told<F: Filters>(page: &mut Page, input: &str, cx: &F::Cx) -> Option<()> {
    let (filter, default) = two(input, BAR);
    let filter = ok!(Text::from_str(page.alloc, filter));
    let default = ok!(Text::from_str(page.alloc, default));
    match holds::<F>(
        page.alloc,
        filter,
        default,
        cx,
        &KnownGroups::Unavailable,
        &test_named("slow"),
    ) {
        Ok(value) => page.show(value),
        Err(FilterError::Refused) => page.show("refused"),
        Err(FilterError::OutOfMemory) => return None,
    }
    Some(())
}

// What a filter is asked: whether it asks for groups, whether it asks what only tests tell, and
// whether it serves as a default.
fn asked_told<F: Filters>(page: &mut Page, input: &str, cx: &F::Cx) -> Option<()> {
    let text = ok!(Text::from_str(page.alloc, input));
    let filter = ok!(F::parse(
        page.alloc,
        text,
        cx,
        FiltersetKind::Test,
        &KnownGroups::Unavailable,
    ));
    show!(page; "groups ", filter.has_groups(), ", tests ", filter.has_runtime_leaves());
    show!(page; ", default ", filter.serves_as_default());
    Some(())
}

// Of filters without a language: a filter and a default filter, and whether the one holds on the
// test `slow`.
pub(crate) fn plain_filters(page: &mut Page, input: &str) -> Option<()> {
    held_told::<PlainFilter>(page, input, &())
}

// Of filtersets the same; of one alone what it asks for.
pub(crate) fn filters(page: &mut Page, input: &str) -> Option<()> {
    let graph = ok!(PackageGraph::new(page.alloc, &[("a-1", "a")], &[]));
    let cx = ok!(ParseContext::new(page.alloc, graph));
    if input.contains(BAR) {
        held_told::<Filterset>(page, input, &cx)
    } else {
        asked_told::<Filterset>(page, input, &cx)
    }
}

// The names of a platform, each with a comma behind it, and a spec: whether it holds there.
pub(crate) fn plain_specs(page: &mut Page, input: &str) -> Option<()> {
    let (words, spec) = two(input, BAR);
    let names = some!(Listing::of_word(page.alloc, words));
    match holds_on::<PlainSpec>(page.alloc, spec, &names) {
        Ok(value) => page.debug(value),
        Err(SpecError::Refused) => page.show("refused"),
        Err(SpecError::OutOfMemory) => return None,
    }
    Some(())
}

// A profile and sources: its retries and where it takes them from, in a configuration of plain
// filters and plain specs.
pub(crate) fn plain_configs(page: &mut Page, input: &str) -> Option<()> {
    let (name, sources) = two(input, BAR);
    let sources = some!(sources_of(page.alloc, sources));
    let platforms = BuildPlatforms {
        host: &Listing::new(page.alloc),
        target: None,
    };
    let found = retries_of::<PlainFilter, PlainSpec>(
        page.alloc,
        &(),
        FeatureSet::default(),
        sources.as_slice(),
        name,
        &platforms,
        &test_named("slow"),
    );
    retries_told(page, ok!(found));
    Some(())
}

fn retries_told(page: &mut Page, found: Option<(RetryPolicy, Option<usize>)>) {
    let Some((retries, place)) = found else {
        return page.show("no such profile");
    };
    match place {
        Some(place) => show!(page; Whole(retries), " Profile(", place, ")"),
        None => show!(page; Whole(retries), " Default"),
    }
}

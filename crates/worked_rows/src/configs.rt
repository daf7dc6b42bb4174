// What sources of configurations come to, and what is told of a file.
use crate::calls_again::TURNS;
use crate::page::Page;
use crate::parts::{Word, list_of, three, two};
use crate::plain_filter::PlainFilter;
use crate::plain_spec::PlainSpec;
use crate::settings::setting_told;
use crate::{ok, show, some};
use nextest_config_elements::{FeatureSet, VersionOnlyConfig, VersionOnlyError, VersionSource};
use nextest_config_resolution::{
    BuildPlatforms, ConfigFileSelection, ConfigPaths, ConfigSource, ConfigSourceKind,
    ConfigSourceOutcome, DefaultConfigWarnings, EvaluatableProfile, LoadError, LoadFault,
    NextestConfig, ProfileError, ToolName, counted, warn_file,
};
use nextest_text::{Listing, Text};
use std::alloc::Global;

// A configuration of filters and specs without a language, and a profile of it.
pub(crate) type PlainConfig = NextestConfig<PlainFilter, PlainSpec>;

pub(crate) type PlainProfile<'c> = EvaluatableProfile<'c, PlainFilter, PlainSpec>;

// What stands between the parts of a row.
pub(crate) const BAR: &str = " | ";

// The sources of a row, in their order.
pub(crate) fn sources_of(alloc: Global, sources: &str) -> Option<Vec<ConfigSource>> {
    list_of::<ConfigSource>(alloc, sources, BAR)
}

// A source: a kind, a path and what came of reading it.
impl Word for ConfigSource {
    fn of_word(alloc: Global, source: &str) -> Option<ConfigSource> {
        let (kind, path, outcome) = three(source);
        let source = ConfigSource {
            kind: some!(kind_of(alloc, kind)),
            path: ok!(Text::from_str(alloc, path)),
            outcome: some!(outcome_of(alloc, outcome)),
        };
        source.clone().ok()
    }
}

// Where a source comes from.
pub(crate) fn kind_of(alloc: Global, word: &str) -> Option<ConfigSourceKind> {
    match word {
        "tool" => Some(ConfigSourceKind::Tool(ok!(ToolName::new(alloc, "t")))),
        "explicit" => Some(ConfigSourceKind::ExplicitRepository),
        "discovered" => Some(ConfigSourceKind::DiscoveredRepository),
        _ => None,
    }
}

// What came of reading a source: `text` and the text, `missing`, or `failed` and the cause.
fn outcome_of(alloc: Global, outcome: &str) -> Option<ConfigSourceOutcome> {
    let (word, rest) = two(outcome, " ");
    match word {
        "text" => Some(ConfigSourceOutcome::Text(ok!(Text::from_str(alloc, rest)))),
        "failed" => Some(ConfigSourceOutcome::Failed(ok!(Text::from_str(alloc, rest)))),
        "missing" => Some(ConfigSourceOutcome::NotFound),
        _ => None,
    }
}

// A profile and the settings that are asked for, with commas between them, perhaps the features
// that are known, and then sources: what each setting is, or why the sources are refused. Default
// filters are those without a language.
pub(crate) fn loads(page: &mut Page, input: &str) -> Option<()> {
    let (head, sources) = two(input, BAR);
    let sources = some!(sources_of(page.alloc, sources));
    loaded(page, sources.as_slice(), head)
}

fn loaded(page: &mut Page, sources: &[ConfigSource], head: &str) -> Option<()> {
    let (name, settings, words) = three(head);
    let features = some!(features_of(page.alloc, words, sources));
    for turn in TURNS {
        match PlainConfig::from_sources(page.alloc, "/work", &(), sources, features) {
            Ok(config) => some!(settings_told(page, &ok!(config.clone()), name, settings)),
            Err(LoadError::Refused(fault)) => refusal_told(page, &ok!(fault.clone())),
            Err(LoadError::OutOfMemory) => continue,
        }
        page.show(turn);
        return Some(());
    }
    None
}

// The path of a file that is named, `-` where none is, and the same as of `loads`, in the workspace
// `/work`: the settings, and behind them what is warned of; or why the sources are refused.
pub(crate) fn selections(page: &mut Page, input: &str) -> Option<()> {
    let (head, sources) = two(input, BAR);
    let (path, head) = two(head, " ");
    let path = if path == "-" { None } else { Some(path) };
    let selection = ok!(ok!(ConfigFileSelection::new(page.alloc, path)).clone());
    let sources = some!(sources_of(page.alloc, sources));
    selected(page, &selection, sources.as_slice(), head)
}

fn selected(
    page: &mut Page,
    selection: &ConfigFileSelection,
    sources: &[ConfigSource],
    head: &str,
) -> Option<()> {
    let (name, settings, words) = three(head);
    let paths = ConfigPaths {
        workspace_root: ok!(Text::from_str(page.alloc, "/work")),
    };
    let mut warnings = DefaultConfigWarnings::new(page.alloc);
    match PlainConfig::from_sources_with_paths(
        page.alloc,
        &ok!(paths.clone()),
        &(),
        selection,
        sources,
        some!(features_of(page.alloc, words, sources)),
        &mut warnings,
    ) {
        Ok(config) => some!(settings_told(page, &config, name, settings)),
        Err(LoadError::Refused(fault)) => refusal_told(page, &fault),
        Err(LoadError::OutOfMemory) => return None,
    }
    page.show_each("; ", warnings.lines(), "");
    Some(())
}

// The features that are known: those of some names, or, by `asked`, those that the sources ask for.
fn features_of(alloc: Global, words: &str, sources: &[ConfigSource]) -> Option<FeatureSet> {
    if words == "asked" {
        return features_asked(alloc, sources);
    }
    Some(FeatureSet {
        setup_scripts: words.contains("setup-scripts"),
        wrapper_scripts: words.contains("wrapper-scripts"),
        benchmarks: words.contains("benchmarks"),
    })
}

// The features that the sources ask for which count; none where one of these may not ask for what
// it does.
fn features_asked(alloc: Global, sources: &[ConfigSource]) -> Option<FeatureSet> {
    let mut lent = Vec::new(alloc);
    for source in ok!(counted(alloc, sources)) {
        ok!(lent.push(lent_by(source)));
    }
    match VersionOnlyConfig::from_sources(alloc, lent.as_slice()) {
        Ok(config) => Some(config.experimental().known()),
        Err(VersionOnlyError::Refused(_)) => Some(FeatureSet::default()),
        Err(VersionOnlyError::OutOfMemory) => None,
    }
}

// A source, lent, with its text if it was read.
fn lent_by(source: &ConfigSource) -> VersionSource<'_> {
    let text = match &source.outcome {
        ConfigSourceOutcome::Text(text) => Some(text.as_str()),
        ConfigSourceOutcome::NotFound | ConfigSourceOutcome::Failed(_) => None,
    };
    VersionSource {
        kind: &source.kind,
        path: source.path.as_str(),
        text,
    }
}

// Why sources are refused: the rule, and what the fault says of the place; the reader's own words
// are left out.
fn refusal_told(page: &mut Page, fault: &LoadFault) {
    show!(page; "refused ", fault.kind(), " ");
    match fault {
        LoadFault::Unread { path, .. } | LoadFault::Toml { path, .. } => page.show(path),
        _ => page.show(fault),
    }
}

// What the settings of a profile are.
fn settings_told(page: &mut Page, config: &PlainConfig, name: &str, keys: &str) -> Option<()> {
    let platforms = BuildPlatforms {
        host: &Listing::new(page.alloc),
        target: None,
    };
    match config.profile(page.alloc, name) {
        Ok(early) => {
            let profile = ok!(early.clone()).apply_build_platforms(&platforms);
            each_told(page, config, &ok!(profile.clone()), keys)
        }
        Err(ProfileError::NotFound(_)) => {
            page.show("no such profile");
            Some(())
        }
        Err(ProfileError::OutOfMemory) => None,
    }
}

// Settings of a profile, with commas between their keys.
fn each_told(
    page: &mut Page,
    config: &PlainConfig,
    profile: &PlainProfile<'_>,
    keys: &str,
) -> Option<()> {
    for key in keys.split(',') {
        page.separate(0, "; ");
        show!(page; key, " = ");
        some!(setting_told(page, config, profile, key));
    }
    Some(())
}

// The path of a file and its text: what is told of it, one behind the other, or `-` where nothing
// is.
pub(crate) fn warnings(page: &mut Page, input: &str) -> Option<()> {
    let (path, text) = two(input, " ");
    let file = ok!(toml::table_from_str(page.alloc, text));
    let source = ConfigSource {
        kind: ConfigSourceKind::ExplicitRepository,
        path: ok!(Text::from_str(page.alloc, path)),
        outcome: ConfigSourceOutcome::Text(ok!(Text::from_str(page.alloc, text))),
    };
    let mut warnings = DefaultConfigWarnings::new(page.alloc);
    ok!(warn_file(page.alloc, &mut warnings, &source, &file));
    page.joined("; ", ok!(warnings.clone()).lines());
    page.or_none(0);
    Some(())
}

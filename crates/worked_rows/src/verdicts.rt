// What lists of sources ask for, and what a version is by them.
use crate::calls_again::{CHANGED, TURNS};
use crate::configs::{BAR, kind_of};
use crate::page::Page;
use crate::parts::{Word, three, two};
use crate::{ok, show, some};
use nextest_config_elements::{
    AskedVersions, ConfigExperimental, ConfigSourceKind, ExperimentalConfig, NextestVersionConfig,
    NextestVersionEval, NextestVersionReq, PlainVersion, VersionOnlyConfig, VersionOnlyError,
    VersionOrigin, VersionSource,
};
use nextest_text::Text;
use std::alloc::Global;

// Where sources come from.
#[derive(Drop)]
struct Kinds {
    tool: ConfigSourceKind,
    explicit: ConfigSourceKind,
    discovered: ConfigSourceKind,
}

// A current version and `strict` or `override`, and then sources, the lowest first, each a kind, a
// path and a text: the verdict, with the version and the path of the source that asks for it, and
// the features that are known, and those that aren't; or why the first source is refused that is.
pub(crate) fn verdicts(page: &mut Page, input: &str) -> Option<()> {
    let (head, sources) = two(input, BAR);
    let kinds = some!(Kinds::of_word(page.alloc, "tool"));
    let lent = some!(lent_by(page.alloc, &kinds, sources));
    for turn in TURNS {
        match VersionOnlyConfig::from_sources(page.alloc, lent.as_slice()) {
            Ok(config) => some!(demands_told(page, &ok!(config.clone()), head)),
            Err(VersionOnlyError::Refused(fault)) => page.show(fault),
            Err(VersionOnlyError::OutOfMemory) => continue,
        }
        page.show(turn);
        return Some(());
    }
    None
}

// Those of all kinds, of which a tool's is of this word.
impl Word for Kinds {
    fn of_word(alloc: Global, word: &str) -> Option<Kinds> {
        Some(Kinds {
            tool: some!(kind_of(alloc, word)),
            explicit: ConfigSourceKind::ExplicitRepository,
            discovered: ConfigSourceKind::DiscoveredRepository,
        })
    }
}

// The sources, lent.
fn lent_by<'a>(
    alloc: Global,
    kinds: &'a Kinds,
    sources: &'a str,
) -> Option<Vec<VersionSource<'a>>> {
    let mut lent = Vec::new(alloc);
    for source in sources.split(BAR) {
        ok!(lent.push(source_of(kinds, source)));
    }
    Some(lent)
}

fn source_of<'a>(kinds: &'a Kinds, source: &'a str) -> VersionSource<'a> {
    let (kind, path, text) = three(source);
    let kind = match kind {
        "tool" => &kinds.tool,
        "explicit" => &kinds.explicit,
        _ => &kinds.discovered,
    };
    let text = Some(text);
    VersionSource { kind, path, text }
}

// What a current version is by what the sources ask for, and the features that they ask for.
fn demands_told(page: &mut Page, config: &VersionOnlyConfig, head: &str) -> Option<()> {
    let (current, flag) = two(head, " ");
    let current = ok!(PlainVersion::parse(page.alloc, current));
    let versions = config.nextest_version();
    verdict_told(page, versions.eval(current.version(), flag == "override"));
    features_told(page, config.experimental());
    Some(())
}

// What a version is by those that count.
fn verdict_told(page: &mut Page, found: NextestVersionEval<'_>) {
    let (word, version, source) = match found {
        NextestVersionEval::Satisfied => return page.show("satisfied"),
        NextestVersionEval::Error {
            required,
            source,
            ..
        } => ("error", required, source),
        NextestVersionEval::Warn {
            recommended,
            source,
            ..
        } => ("warn", recommended, source),
        NextestVersionEval::ErrorOverride {
            required,
            source,
            ..
        } => ("error-override", required, source),
        NextestVersionEval::WarnOverride {
            recommended,
            source,
            ..
        } => ("warn-override", recommended, source),
    };
    show!(page; word, " ", version, " by ", &source.path);
}

// Which features are known, and which aren't.
fn features_told(page: &mut Page, features: &ExperimentalConfig) {
    page.show("; known");
    for feature in ConfigExperimental::known_features() {
        if features.known().contains(feature) {
            show!(page; " ", feature.as_str());
        }
    }
    page.show("; unknown");
    for source in features.source_errors() {
        page.show_each(" ", source.names.as_slice(), "");
    }
}

// What these sources ask for.
fn config_of(alloc: Global, sources: &str) -> Option<VersionOnlyConfig> {
    let kinds = some!(Kinds::of_word(alloc, "tool"));
    let lent = some!(lent_by(alloc, &kinds, sources));
    VersionOnlyConfig::from_sources(alloc, lent.as_slice()).ok()
}

// A current version and one that a source `high` requires, and then the sources that it is put
// behind: the verdict.
pub(crate) fn accumulate(page: &mut Page, input: &str) -> Option<()> {
    let (head, sources) = two(input, BAR);
    let (current, version) = two(head, " ");
    let current = ok!(PlainVersion::parse(page.alloc, current));
    let config = some!(config_of(page.alloc, sources));
    let (mut versions, kept) = (
        ok!(config.nextest_version().clone()),
        config.nextest_version(),
    );
    let high = VersionOrigin {
        kind: ConfigSourceKind::ExplicitRepository,
        path: ok!(Text::from_str(page.alloc, "high")),
    };
    let asked = AskedVersions {
        required: Some(ok!(PlainVersion::parse(page.alloc, version))),
        recommended: None,
    };
    for turn in TURNS {
        if versions.accumulate(ok!(asked.clone()), &high).is_ok() {
            verdict_told(page, versions.eval(current.version(), false));
            page.show(turn);
            return Some(());
        }
        if versions != *kept {
            page.show(CHANGED);
        }
    }
    None
}

// Sources, and one that is put behind them: the features that they ask for together.
pub(crate) fn merge(page: &mut Page, input: &str) -> Option<()> {
    let (sources, source) = some!(input.rsplit_once(BAR));
    let config = some!(config_of(page.alloc, sources));
    let more = some!(config_of(page.alloc, source));
    let (mut features, kept) = (ok!(config.experimental().clone()), config.experimental());
    for turn in TURNS {
        let other = ok!(more.experimental().clone());
        if features.merge(other).is_ok() {
            features_told(page, &features);
            page.show(turn);
            return Some(());
        }
        if features != *kept {
            page.show(CHANGED);
        }
    }
    None
}

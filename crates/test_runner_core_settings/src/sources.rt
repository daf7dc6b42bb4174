// The sources that count, as the version pass takes them.
ghost use Rattle.std.specs.Prelude.{◌≡◌, map, option_map, IfOk};
ghost use Rattle.nextest_config_elements_versions.specs.Sources.{version_source_of};
ghost use Rattle.test_runner_core_settings.specs.Sources as words;

use nextest_config_elements_versions::VersionSource;
use nextest_config_resolution_sources::{ConfigSource, ConfigSourceOutcome, counted};
use std::alloc::{AllocError, Global};

// The sources that count, the lowest first, lent.
pub(crate) fn lent_sources<'s>(
    alloc: Global,
    sources: &'s [ConfigSource],
) -> Result<Vec<VersionSource<'s>>, AllocError>
    ensures { IfOk result
        (λ found. map version_source_of found.items ≡ words.sources_of sources.now) }
{
    let mut found = Vec::new(alloc);
    for source in counted(alloc, sources)? {
        found.push(lent(source))?;
    }
    Ok(found)
}

// A source as the version pass takes it.
fn lent(source: &ConfigSource) -> VersionSource<'_>
    ensures { version_source_of result ≡ words.source_of source.now }
{
    VersionSource {
        kind: source.kind(),
        path: source.path(),
        text: text_of(&source.outcome),
    }
}

// The text of a source that was read.
fn text_of(outcome: &ConfigSourceOutcome) -> Option<&str>
    ensures { option_map (λ it. it.now) result ≡ words.text_of outcome.now }
{
    match outcome {
        ConfigSourceOutcome::Text(text) => Some(text.as_str()),
        ConfigSourceOutcome::NotFound | ConfigSourceOutcome::Failed(_) => None,
    }
}

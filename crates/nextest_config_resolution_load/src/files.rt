// The files of sources.
ghost use Rattle.std.specs.Prelude.{◌≡◌, ◌++◌, [], None, Ok, map, option_to_list, OnOk};
ghost use Rattle.std.specs.List.{flat_map};
ghost use Rattle.toml.specs.Parse.{parse_document};
ghost use Rattle.toml.specs.View.{table_view};
ghost use Rattle.nextest_config_resolution_load.specs.Checks.{document_checks, file_checks, file_of, file_with_setup, missing_checks, no_rules, rules_in, rules_in_file, rules_of_source, source_checks};
ghost use Rattle.nextest_config_resolution_load.specs.File.{file_in};
ghost use Rattle.nextest_config_resolution_load.specs.Reading.{AreReadFiles, AreReadInFile, ParsesText};
ghost use Rattle.nextest_config_resolution_load.specs.Refusing.{Passes};
ghost use Rattle.nextest_config_resolution_load.specs.Warn.{AreKept, warnings_at, warnings_for};

use crate::defined::check_defined;
use crate::file_config::FileConfig;
use crate::file_reading::read_file;
use crate::languages::Languages;
use crate::load_error::LoadError;
use crate::merging::with_setup;
use crate::placed_file::{ReadFiles, SourceRules};
use crate::profile_rules::load_profiles;
use crate::refusing::{bad_value, no_toml, unread};
use crate::warn::keep_warnings;
use nextest_config_elements_identifiers::ConfigSourceKind;
use nextest_config_elements_toml::ValueError;
use nextest_config_elements_versions::FeatureSet;
use nextest_config_resolution_sources::{ConfigSource, ConfigSourceOutcome};
use nextest_config_resolution_warnings::KeptWarnings;
use nextest_text::{Listing, Text};
use std::alloc::Global;
use toml::Table;

// The files of some sources, and the rules of each source. What is told of the files is kept, if
// anything is.
pub(crate) fn read_files<'s, R: Languages>(
    alloc: Global,
    cx: &R::Cx,
    features: FeatureSet,
    sources: &[&'s ConfigSource],
    kept: &mut Option<KeptWarnings<'s>>,
) -> Result<ReadFiles<R::Filter, R::Spec>, LoadError>
    ensures read { let all = map (λ it. it.now) sources.now in Passes
        (R.is_filter cx.now) R.is_spec R.is_too_deep (flat_map (source_checks features) all)
        (AreReadFiles (R.is_filter cx.now) R.is_spec all) result }
    ensures kept { OnOk result (AreKept kept.old kept.new
        (flat_map warnings_for (map (λ it. it.now) sources.now))) }
{
    let mut files = Vec::new(alloc);
    let mut rules = Vec::new(alloc);
    for source in sources {
        let own = read_source::<R>(alloc, cx, features, source, &mut files, kept)?;
        rules.push(own)?;
    }
    Ok(ReadFiles { files, rules })
}

// The rules of a source. Its file, if there is one, is put behind others, and what is told of it is
// kept, if anything is.
fn read_source<'s, R: Languages>(
    alloc: Global,
    cx: &R::Cx,
    features: FeatureSet,
    source: &'s ConfigSource,
    files: &mut Vec<Table>,
    kept: &mut Option<KeptWarnings<'s>>,
) -> Result<SourceRules<R::Filter, R::Spec>, LoadError>
    ensures rules { Passes (R.is_filter cx.now) R.is_spec R.is_too_deep
        (source_checks features source.now)
        (AreReadInFile (R.is_filter cx.now) R.is_spec (rules_of_source source.now)) result }
    ensures files { OnOk result (map table_view files.new.items ≡ map table_view files.old.items
        ++ map file_with_setup (option_to_list (file_of source.now))) }
    ensures kept { OnOk result (AreKept kept.old kept.new (warnings_for source.now)) }
{
    let path = source.path.as_str();
    match &source.outcome {
        ConfigSourceOutcome::Text(text) => {
            read_text::<R>(alloc, cx, features, source, text.as_str(), files, kept)
        }
        ConfigSourceOutcome::NotFound => read_missing::<R>(alloc, cx, path, &source.kind),
        ConfigSourceOutcome::Failed(cause) => Err(unread(alloc, path, cause.as_str())),
    }
}

// A source that isn't there: a file that was looked for may be missing.
fn read_missing<R: Languages>(
    alloc: Global,
    cx: &R::Cx,
    path: &str,
    kind: &ConfigSourceKind,
) -> Result<SourceRules<R::Filter, R::Spec>, LoadError>
    ensures { Passes (R.is_filter cx.now) R.is_spec R.is_too_deep (missing_checks path.now kind.now)
        (AreReadInFile (R.is_filter cx.now) R.is_spec no_rules) result }
{
    match kind {
        ConfigSourceKind::DiscoveredRepository => Ok(no_rules(alloc)),
        ConfigSourceKind::Tool(_) | ConfigSourceKind::ExplicitRepository => {
            Err(unread(alloc, path, "there is no such file"))
        }
    }
}

// No rules.
fn no_rules<F: Drop, S: Drop>(alloc: Global) -> SourceRules<F, S>
    ensures overrides { result.overrides ≡ [] }
    ensures scripts { result.scripts ≡ [] }
{
    SourceRules {
        overrides: Listing::new(alloc),
        scripts: Listing::new(alloc),
    }
}

// The rules of a source whose file has this text. The file is put behind others, with its setup
// scripts where they stand now, and what is told of it is kept, if anything is.
fn read_text<'s, R: Languages>(
    alloc: Global,
    cx: &R::Cx,
    features: FeatureSet,
    source: &'s ConfigSource,
    text: &str,
    files: &mut Vec<Table>,
    kept: &mut Option<KeptWarnings<'s>>,
) -> Result<SourceRules<R::Filter, R::Spec>, LoadError>
    ensures rules { let given = parse_document text.now in Passes (R.is_filter cx.now) R.is_spec
        R.is_too_deep (document_checks features source.now.path source.now.kind given)
        (AreReadInFile (R.is_filter cx.now) R.is_spec (rules_in source.now.path given)) result }
    ensures files { OnOk result (map table_view files.new.items ≡ map table_view files.old.items
        ++ map file_with_setup (option_to_list (parse_document text.now))) }
    ensures kept { OnOk result
        (AreKept kept.old kept.new (warnings_at source.now (parse_document text.now))) }
{
    let path = source.path.as_str();
    let file = parse_text(alloc, path, text)?;
    keep_warnings(kept, source, &file)?;
    let rules = read_rules::<R>(alloc, cx, features, path, &source.kind, &file)?;
    files.push(with_setup(alloc, file)?)?;
    Ok(rules)
}

// The file of a text.
fn parse_text(alloc: Global, path: &str, text: &str) -> Result<Table, LoadError>
    ensures { ParsesText table_view path.now (parse_document text.now) result }
{
    match toml::table_from_str(alloc, text) {
        Ok(table) => Ok(table),
        Err(error) if error.is_memory() => Err(LoadError::OutOfMemory),
        Err(error) => {
            let message = Text::from(format!(in alloc; "{error}")?);
            Err(no_toml(alloc, path, message))
        }
    }
}

// The rules of a file, whose values are all such as their keys can have.
fn read_rules<R: Languages>(
    alloc: Global,
    cx: &R::Cx,
    features: FeatureSet,
    path: &str,
    kind: &ConfigSourceKind,
    file: &Table,
) -> Result<SourceRules<R::Filter, R::Spec>, LoadError>
    ensures { let given = file_in (table_view file.now) in Passes (R.is_filter cx.now)
        R.is_spec R.is_too_deep (file_checks features path.now kind.now given) (λ it.
        AreReadInFile (R.is_filter cx.now) R.is_spec (rules_in_file path.now given) it) result }
{
    match read_file(alloc, file) {
        Ok(config) => rules_of::<R>(alloc, cx, features, path, kind, config),
        Err(ValueError::Refused(bad)) => Err(bad_value(alloc, path, bad)),
        Err(ValueError::OutOfMemory) => Err(LoadError::OutOfMemory),
    }
}

// The rules of a file that says this.
fn rules_of<R: Languages>(
    alloc: Global,
    cx: &R::Cx,
    features: FeatureSet,
    path: &str,
    kind: &ConfigSourceKind,
    config: FileConfig,
) -> Result<SourceRules<R::Filter, R::Spec>, LoadError>
    ensures { Passes (R.is_filter cx.now) R.is_spec R.is_too_deep
        (file_checks features path.now kind.now (Ok config)) (λ it. AreReadInFile
        (R.is_filter cx.now) R.is_spec (rules_in_file path.now (Ok config)) it) result }
{
    check_defined::<R>(alloc, cx, features, path, kind, &config)?;
    load_profiles::<R>(alloc, cx, path, config.profiles)
}

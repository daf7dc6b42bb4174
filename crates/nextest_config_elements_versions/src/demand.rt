// What a source asks for.
ghost use Rattle.std.specs.Prelude.{[], codes, option_map, Ok, ◌≡◌};
ghost use Rattle.toml.specs.View.{table_view};
ghost use Rattle.nextest_config_elements_toml.specs.Paths.{Gives};
ghost use Rattle.nextest_config_elements_versions.specs.Demand.{demand_of, experimental_in, nextest_version_in};
ghost use Rattle.nextest_config_elements_versions.specs.Sources.{GivesDemand, IsRefusal, demand_in, read_for, version_source_of, unless_tool};

use crate::asked_versions::{AskedVersions, deserialize_nextest_version};
use crate::features::deserialize_experimental;
use crate::origin::VersionSource;
use crate::source_fault::{VersionOnlyError, VersionSourceFault, VersionSourceReason};
use nextest_config_elements_identifiers::ConfigSourceKind;
use nextest_config_elements_toml::{ValueError, member};
use nextest_text::{Listing, Text};
use std::alloc::{AllocError, Global};
use toml::Table;

/// What a source asks for.
#[derive(Debug, PartialEq, Eq, Drop)]
pub struct VersionDemand {
    /// The versions.
    pub versions: AskedVersions,
    /// The names of features, in their order.
    pub features: Listing<Text>,
}

// What a source asks for.
pub(crate) fn demand_in(
    alloc: Global,
    source: &VersionSource,
) -> Result<VersionDemand, VersionOnlyError>
    ensures { GivesDemand (version_source_of source.now)
        (demand_in source.now.kind.now (version_source_of source.now).text) result }
{
    match source.text {
        Some(text) => demand_in_text(alloc, source, text),
        None => Ok(VersionDemand {
            versions: AskedVersions {
                required: None,
                recommended: None,
            },
            features: Listing::new(alloc),
        }),
    }
}

// What the text of a source asks for.
fn demand_in_text(
    alloc: Global,
    source: &VersionSource,
    text: &str,
) -> Result<VersionDemand, VersionOnlyError>
    ensures { GivesDemand (version_source_of source.now)
        (demand_in source.now.kind.now (Some text.now)) result }
{
    match toml::table_from_str(alloc, text) {
        Ok(top) => read_for(alloc, source, &top),
        Err(error) if error.is_memory() => Err(VersionOnlyError::OutOfMemory),
        Err(error) => {
            let message = Text::from(format!(in alloc; "{error}")?);
            Err(refused(alloc, source, VersionSourceReason::Toml(message)))
        }
    }
}

// What the top table of a source asks for.
fn read_for(
    alloc: Global,
    source: &VersionSource,
    top: &Table,
) -> Result<VersionDemand, VersionOnlyError>
    ensures { GivesDemand (version_source_of source.now)
        (read_for source.now.kind.now (demand_of (table_view top.now))) result }
{
    match demand_of(alloc, top) {
        Ok(demand) => unless_tool(alloc, source, demand),
        Err(ValueError::Refused(bad)) => {
            Err(refused(alloc, source, VersionSourceReason::BadValue(bad)))
        }
        Err(ValueError::OutOfMemory) => Err(VersionOnlyError::OutOfMemory),
    }
}

// A tool may ask for no feature.
fn unless_tool(
    alloc: Global,
    source: &VersionSource,
    demand: VersionDemand,
) -> Result<VersionDemand, VersionOnlyError>
    ensures { GivesDemand (version_source_of source.now)
        (unless_tool source.now.kind.now demand) result }
{
    match source.kind {
        ConfigSourceKind::Tool(_) if !demand.features.is_empty() => {
            Err(refused(alloc, source, VersionSourceReason::ToolFeatures))
        }
        _ => Ok(demand),
    }
}

// Refuses a source.
fn refused(alloc: Global, source: &VersionSource, reason: VersionSourceReason) -> VersionOnlyError
    ensures { IsRefusal source.now.path.now reason result }
{
    match Text::from_str(alloc, source.path) {
        Ok(path) => VersionOnlyError::Refused(VersionSourceFault { path, reason }),
        Err(AllocError) => VersionOnlyError::OutOfMemory,
    }
}

// What a top table asks for.
fn demand_of(alloc: Global, top: &Table) -> Result<VersionDemand, ValueError>
    ensures { Gives [] result (demand_of (table_view top.now)) }
{
    let features = experimental_in(alloc, top)?;
    let versions = nextest_version_in(alloc, top)?;
    Ok(VersionDemand { versions, features })
}

// The features that a top table asks for.
fn experimental_in(alloc: Global, top: &Table) -> Result<Listing<Text>, ValueError>
    ensures { Gives [] result (experimental_in (table_view top.now)) }
{
    match member(top, "experimental") {
        Some(given) => deserialize_experimental(alloc, given, &["experimental"]),
        None => Ok(Listing::new(alloc)),
    }
}

// The versions that a top table asks for.
fn nextest_version_in(alloc: Global, top: &Table) -> Result<AskedVersions, ValueError>
    ensures { Gives [] result (nextest_version_in (table_view top.now)) }
{
    match member(top, "nextest-version") {
        Some(given) => deserialize_nextest_version(alloc, given, &["nextest-version"]),
        None => Ok(AskedVersions {
            required: None,
            recommended: None,
        }),
    }
}

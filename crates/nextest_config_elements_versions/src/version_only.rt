// What a list of sources asks for.
ghost use Rattle.std.specs.Prelude.{◌≡◌, [], ◌∷◌, Ok, IfOk, OnOk, OnErr, map};
ghost use Rattle.nextest_config_elements_versions.specs.Sources.{Comes, GivesConfig, config_of, merge_of, origin_of, version_source_of};

use crate::demand::{VersionDemand, demand_in};
use crate::experimental::ExperimentalConfig;
use crate::origin::{VersionOrigin, VersionSource};
use crate::source_fault::VersionOnlyError;
use crate::version_config::NextestVersionConfig;
use std::alloc::{AllocError, Global};

/// The versions and features that a list of sources asks for.
#[derive(Clone, Debug, PartialEq, Eq, Drop)]
pub struct VersionOnlyConfig {
    nextest_version: NextestVersionConfig,
    experimental: ExperimentalConfig,
}

impl VersionOnlyConfig {
    /// What no sources ask for.
    pub fn none(alloc: Global) -> VersionOnlyConfig
        ensures { Comes [] result }
    {
        VersionOnlyConfig {
            nextest_version: NextestVersionConfig::none(),
            experimental: ExperimentalConfig::none(alloc),
        }
    }

    /// What a list of sources asks for, the lowest first. The first source that may not stand in it
    /// is refused: its text is no TOML, a value in it can't stand at its key, or it is a tool's and
    /// asks for a feature.
    pub fn from_sources(
        alloc: Global,
        sources: &[VersionSource],
    ) -> Result<VersionOnlyConfig, VersionOnlyError>
        ensures exact { GivesConfig (map version_source_of sources.now) result }
    {
        let mut config = VersionOnlyConfig::none(alloc);
        for source in sources {
            match of_source(alloc, source) {
                Ok(more) => config.merge(more)?,
                Err(error) => return Err(error),
            }
        }
        Ok(config)
    }

    /// The versions.
    pub fn nextest_version(&self) -> &NextestVersionConfig
        ensures { result.now ≡ self.now.nextest_version }
    {
        &self.nextest_version
    }

    /// The features.
    pub fn experimental(&self) -> &ExperimentalConfig
        ensures { result.now ≡ self.now.experimental }
    {
        &self.experimental
    }

    /// Puts what another part of a list asks for behind it. An `Err` says that there is no memory,
    /// and leaves it as it was.
    pub fn merge(&mut self, other: VersionOnlyConfig) -> Result<(), AllocError>
        ensures merged { OnOk result (self.new ≡ merge_of self.old other) }
        ensures err { OnErr result (self.new ≡ self.old) }
    {
        let VersionOnlyConfig {
            nextest_version,
            experimental,
        } = other;
        self.experimental.merge(experimental)?;
        self.nextest_version.merge(nextest_version);
        Ok(())
    }
}

// What one source asks for.
fn of_source(alloc: Global, source: &VersionSource) -> Result<VersionOnlyConfig, VersionOnlyError>
    ensures { GivesConfig (version_source_of source.now ∷ []) result }
{
    let demand = match demand_in(alloc, source) {
        Ok(demand) => demand,
        Err(error) => return Err(error),
    };
    match of_demand(alloc, source, demand) {
        Ok(config) => Ok(config),
        Err(AllocError) => Err(VersionOnlyError::OutOfMemory),
    }
}

// What a source that asks for this comes to.
fn of_demand(
    alloc: Global,
    source: &VersionSource,
    demand: VersionDemand,
) -> Result<VersionOnlyConfig, AllocError>
    ensures { IfOk result (λ it. it ≡ config_of demand (origin_of (version_source_of source.now))) }
{
    let origin = VersionOrigin::of_source(alloc, source)?;
    let experimental = ExperimentalConfig::of_source(alloc, demand.features.as_slice(), &origin)?;
    Ok(VersionOnlyConfig {
        nextest_version: NextestVersionConfig::of_source(demand.versions, &origin)?,
        experimental,
    })
}

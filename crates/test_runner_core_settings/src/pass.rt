// The version pass.
ghost use Rattle.std.specs.Prelude.{◌≡◌, IfOk};
ghost use Rattle.test_runner_core_settings.specs.Pass.{GivesPass, pass_of_config, pass_of};
ghost use Rattle.test_runner_core_settings.specs.Evaluation.{is_error};

use crate::pass_error::{VersionPassError, VersionPassFault};
use crate::sources::lent_sources;
use crate::warning::version_warnings;
use nextest_config_elements_versions::{
    FeatureSet, NextestVersionEval, VersionOnlyConfig, VersionOnlyError,
};
use nextest_text::{Listing, Text};
use std::alloc::Global;
use test_runner_core_inputs::Inputs;

/// What inputs come to that pass.
#[derive(Drop)]
pub struct VersionPass {
    /// The warnings, as reports tell them.
    pub warnings: Listing<Text>,
    /// The features that the sources ask for.
    pub experimental: FeatureSet,
}

/// Judges the inputs by the versions and features that their sources ask for, of which the tools'
/// count, the first handed in as the highest, and of the repository's the first that was named,
/// else the first that was looked for. An `Err` says, in this order, that a source is refused, that
/// the current version is below a required one and that isn't passed over, or that a feature is
/// asked for that isn't known; or that there was no memory, which says nothing of the inputs.
pub fn version_pass(alloc: Global, inputs: &Inputs) -> Result<VersionPass, VersionPassError>
    ensures exact { GivesPass result (pass_of inputs.now) }
{
    let sources = lent_sources(alloc, inputs.sources.as_slice())?;
    match VersionOnlyConfig::from_sources(alloc, sources.as_slice()) {
        Ok(config) => judge(alloc, &config, inputs),
        Err(VersionOnlyError::Refused(_)) => Err(VersionPassError::Refused(
            VersionPassFault::VersionSource,
        )),
        Err(VersionOnlyError::OutOfMemory) => Err(VersionPassError::OutOfMemory),
    }
}

// What the current version makes of what the sources ask for.
fn judge(
    alloc: Global,
    config: &VersionOnlyConfig,
    inputs: &Inputs,
) -> Result<VersionPass, VersionPassError>
    ensures { GivesPass result
        (pass_of_config config.now inputs.now.current_version inputs.now.override_version_check) }
{
    let current = inputs.current_version.version();
    let eval = config
        .nextest_version()
        .eval(current, inputs.override_version_check);
    if is_error(&eval) {
        return Err(VersionPassError::Refused(VersionPassFault::VersionError));
    }
    if !config.experimental().source_errors().is_empty() {
        return Err(VersionPassError::Refused(VersionPassFault::UnknownFeature));
    }
    Ok(VersionPass {
        warnings: version_warnings(alloc, &eval)?,
        experimental: config.experimental().known(),
    })
}

// Whether the current version is below a required one, and that isn't let pass.
fn is_error(eval: &NextestVersionEval<'_>) -> bool
    ensures { result ≡ is_error eval.now }
{
    match eval {
        NextestVersionEval::Error { .. } => true,
        NextestVersionEval::Satisfied
        | NextestVersionEval::Warn { .. }
        | NextestVersionEval::ErrorOverride { .. }
        | NextestVersionEval::WarnOverride { .. } => false,
    }
}

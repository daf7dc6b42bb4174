// A configuration, and what a test is run with by it.
ghost use Rattle.std.specs.Prelude.{IfOk};
ghost use Rattle.nextest_config_resolution.specs.Config.{IsConfig, IsFilterIn};
ghost use Rattle.nextest_config_resolution.specs.Query.{test_of};
ghost use Rattle.faces_tests.specs.Settings.{IsRetriedBy};

use nextest_config_resolution::{
    BuildPlatforms, ConfigSource, FeatureSet, Filters, LoadError, NextestConfig, NextestRunMode,
    ProfileError, RetryPolicy, Specs, TestQuery,
};
use std::alloc::Global;

/// What sources come to in a workspace, or the first rule that one of them breaks.
pub fn configured<F: Filters, S: Specs>(
    alloc: Global,
    root: &str,
    workspace: &F::Cx,
    sources: &[ConfigSource],
    features: FeatureSet,
) -> Result<NextestConfig<F, S>, LoadError>
    ensures { IsConfig (IsFilterIn F.is_parsed F.has_runtime_leaves workspace.now) S.is_parsed
        F.is_too_deep features root.now sources.now result }
{
    NextestConfig::from_sources(alloc, root, workspace, sources, features)
}

/// How a test is tried again by the profile of a name.
pub fn tried_again<F: Filters, S: Specs>(
    alloc: Global,
    config: &NextestConfig<F, S>,
    name: &str,
    platforms: &BuildPlatforms<'_, S::Facts>,
    test: &TestQuery<'_>,
) -> Result<RetryPolicy, ProfileError>
    ensures { IfOk result (IsRetriedBy S.value_on F.on_test config.now name.now platforms.now
        (test_of test.now)) }
{
    let profile = match config.profile(alloc, name) {
        Ok(early) => early.apply_build_platforms(platforms),
        Err(error) => return Err(error),
    };
    match profile.settings_with_source_for(alloc, NextestRunMode::Test, test) {
        Ok(settings) => Ok(settings.retries.0),
        Err(_) => Err(ProfileError::OutOfMemory),
    }
}

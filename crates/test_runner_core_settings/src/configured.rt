// What the configuration of inputs sets for their run.
ghost use Rattle.std.specs.Prelude.{◌≡◌, IfOk};
ghost use Rattle.nextest_filtering_compiling.specs.Context.{Context};
ghost use Rattle.test_runner_core_settings.specs.Calls.{Chooses, Configures};
ghost use Rattle.test_runner_core_settings.specs.Pass.{features_of};
ghost use Rattle.test_runner_core_settings.specs.Sets.{Reads};
ghost use Rattle.test_runner_core_settings.specs.Settings.{IsOfChain};

use crate::platforms::{facts_of, platforms_of, target_of};
use crate::settings_error::SettingsError;
use nextest_config_elements_choices::MaxFail;
use nextest_config_elements_versions::FeatureSet;
use nextest_config_resolution_profiles::{EvaluatableProfile, NextestConfig};
use nextest_config_resolution_warnings::DefaultConfigWarnings;
use nextest_filtering_compiling::{Filterset, ParseContext};
use nextest_filtering_filters::KnownGroups;
use nextest_run_events_visibility::StatusLevels;
use nextest_text::{Listing, Text};
use std::alloc::{AllocError, Global};
use test_runner_core_inputs::Inputs;
use test_runner_core_platforms::PlatformSpec;

/// A configuration of runs: tests are told apart by filtersets, and builds by platform specs.
pub type RunConfig = NextestConfig<Filterset, PlatformSpec>;

/// What a profile sets for a run.
pub struct RunSettings {
    /// The text of the default filter.
    pub default_filter: Text,
    /// The groups of tests that a filterset may name.
    pub known_groups: KnownGroups,
    /// At which weight failing tests stop the run.
    pub max_fail: MaxFail,
    /// Which statuses are shown.
    pub levels: StatusLevels,
}

// One call drops it, whoever holds it.
impl Drop for RunSettings {
    fn drop(self) {
        let Self {
            default_filter: _,
            known_groups: _,
            max_fail: _,
            levels: _,
        } = self;
    }
}

/// The configuration of inputs, and what is told of it.
#[derive(Drop)]
pub struct ConfiguredRun {
    /// What their sources come to.
    pub config: RunConfig,
    /// The warnings of keys and profiles that no configuration knows, as reports tell them.
    pub warnings: Listing<Text>,
}

/// What the chosen profile of a configuration sets for a run, and the profile, which is asked for
/// the settings of tests.
#[derive(Drop)]
pub struct ChosenRun<'c> {
    /// What the profile sets for the run.
    pub settings: RunSettings,
    /// The profile, on the platforms of the run.
    pub profile: EvaluatableProfile<'c, Filterset, PlatformSpec>,
}

/// What the sources of inputs come to, those that count, each over the lower ones and over what is
/// built in. `cx` is the workspace of the inputs to filtersets, and `experimental` are the features
/// that the sources ask for.
///
/// # Errors
///
/// `Refused` tells of the first rule of the load that is broken, as `load` says. Want of memory
/// says nothing of the inputs.
pub fn configure(
    alloc: Global,
    cx: &ParseContext,
    inputs: &Inputs,
    experimental: FeatureSet,
) -> Result<ConfiguredRun, SettingsError>
    ensures { experimental ≡ features_of inputs.now → Configures cx.now inputs.now result }
{
    let mut warnings = DefaultConfigWarnings::new(alloc);
    let sources = inputs.sources.as_slice();
    let root = inputs.root.as_str();
    let config = RunConfig::from_sources_with_warnings(
        alloc,
        root,
        cx,
        sources,
        experimental,
        &mut warnings,
    )?;
    Ok(ConfiguredRun {
        config,
        warnings: warnings.into_lines(),
    })
}

/// What the chosen profile sets in the configuration of inputs, and the profile itself, on the
/// platforms of the inputs.
///
/// # Errors
///
/// `Refused` tells, in this order, that no profile has the chosen name, or that two facts of the
/// host, or of the target, have the same name and the same value. Want of memory says nothing of
/// the inputs.
pub fn run_settings<'c>(
    alloc: Global,
    config: &'c RunConfig,
    inputs: &Inputs,
) -> Result<ChosenRun<'c>, SettingsError>
    ensures { (cx : Context) → Reads cx inputs.now config.now → Chooses cx inputs.now result }
{
    let early = config.profile(alloc, inputs.profile.as_str())?;
    let host = facts_of(alloc, &inputs.host)?;
    let target = target_of(alloc, &inputs.target)?;
    let platforms = platforms_of(&host, &target);
    let known_groups = early.known_groups(alloc)?;
    let profile = early.apply_build_platforms(&platforms);
    let settings = evaluated(&profile, known_groups)?;
    Ok(ChosenRun { settings, profile })
}

// What a profile sets for a run.
fn evaluated(
    profile: &EvaluatableProfile<'_, Filterset, PlatformSpec>,
    known_groups: KnownGroups,
) -> Result<RunSettings, AllocError>
    ensures text { IfOk result
        (λ it. it.default_filter ≡ profile.now.default_filter.filter.now.input) }
    ensures limits { IfOk result (IsOfChain profile.now.chain) }
    ensures groups { IfOk result (λ it. it.known_groups ≡ known_groups) }
{
    Ok(RunSettings {
        default_filter: profile.default_filter().filter.input.clone()?,
        known_groups,
        max_fail: profile.max_fail(),
        levels: StatusLevels {
            status_level: profile.status_level(),
            final_status_level: profile.final_status_level(),
        },
    })
}

// The settings of a test, with what is kept of where they are taken from.
ghost use Rattle.std.specs.Prelude.{◌≡◌, unwrap_or};
ghost use Rattle.std.specs.Option.{option_copied};
ghost use Rattle.nextest_config_resolution_keys.specs.Command.{run_extra_args_of};
ghost use Rattle.nextest_config_resolution_keys.specs.Modes.{slow_timeout_by, slow_timeout_or};
ghost use Rattle.nextest_config_resolution_keys.specs.Command.{run_extra_args_fallback};
ghost use Rattle.nextest_config_resolution_overrides.specs.RuleKeys.{test_group_of};
ghost use Rattle.nextest_config_resolution_overrides.specs.Schedule.{test_group_fallback};
ghost use Rattle.nextest_config_resolution_settings.specs.Layers.{layers_in};
ghost use Rattle.nextest_config_resolution_settings.specs.Nearest.{lent_layers};
ghost use Rattle.nextest_config_resolution_settings.specs.Rules.{id_of};
ghost use Rattle.nextest_config_resolution_settings.specs.TestSettings.{AreSettings, group_of};
ghost use Rattle.nextest_config_resolution_settings.specs.Tracked.{IsCommandSetting, IsRuleSetting, IsTestSetting, IsTracked};

use crate::layers::{Rule, Sets, find_setting};
use crate::source::TrackSource;
use crate::test_settings::{TestGroupRef, TestSettings};
use crate::wrappers::wrapper_by;
use nextest_config_elements_choices::NextestRunMode;
use nextest_config_elements_values::SlowTimeout;
use nextest_config_resolution_keys::{
    BenchSlowTimeoutKey, ConfigKey, FailWeightKey, FailureOutputKey, FlakyResultKey, HasFallback,
    JunitFlakyFailStatusKey, JunitReportSkippedKey, JunitStoreFailureOutputKey,
    JunitStoreSuccessOutputKey, LeakTimeoutKey, ProfileConfig, RetriesKey, RunExtraArgsKey,
    SlowTimeoutKey, SuccessOutputKey, ThreadsRequiredKey,
};
use nextest_config_resolution_overrides::{PlacedOverride, PriorityKey, TestGroupKey};
use nextest_config_resolution_scripts::{
    NamedScript, PlacedScriptRule, RunWrapperKey, WrapperScriptConfig,
};
use nextest_text::Text;

/// What sets the settings of a test.
#[derive(Clone, Copy)]
pub struct TestLayers<'l, 'c> {
    /// The overrides that hold on it, in their order.
    pub overrides: &'l [&'c PlacedOverride],
    /// The script rules that hold on it, in their order.
    pub scripts: &'l [&'c PlacedScriptRule],
    /// The wrapper scripts that are defined.
    pub wrappers: &'c [NamedScript<WrapperScriptConfig>],
    /// The chain of its profile: the profile, its parents one after another, and `default`.
    pub chain: &'l [&'c ProfileConfig],
}

/// The settings that these layers set for a test; with each stands what is kept of where it is
/// taken from. Each is that of the nearest override that sets it, else that of the nearest profile
/// of the chain that does, else the fallback; overrides alone set a priority and a group. The
/// wrapper script is the one that the nearest script rule names that names one.
pub fn settings_by<'l, 'c, T: TrackSource<'c>>(
    layers: TestLayers<'l, 'c>,
    mode: NextestRunMode,
) -> TestSettings<'c, T>
    ensures { AreSettings T.tells mode (layers_in layers.entry) result }
{
    TestSettings {
        priority: found_or_fallback::<PriorityKey, PlacedOverride, T>(layers.overrides, &[]),
        threads_required: tracked::<ThreadsRequiredKey, T>(layers),
        run_wrapper: wrapper_by::<RunWrapperKey, T>(layers.scripts, layers.wrappers),
        run_extra_args: run_extra_args_by(layers),
        retries: tracked::<RetriesKey, T>(layers),
        flaky_result: tracked::<FlakyResultKey, T>(layers),
        fail_weight: tracked::<FailWeightKey, T>(layers),
        slow_timeout: slow_timeout_by(layers, mode),
        leak_timeout: tracked::<LeakTimeoutKey, T>(layers),
        test_group: test_group_by(layers),
        success_output: tracked::<SuccessOutputKey, T>(layers),
        failure_output: tracked::<FailureOutputKey, T>(layers),
        junit_store_success_output: tracked::<JunitStoreSuccessOutputKey, T>(layers),
        junit_store_failure_output: tracked::<JunitStoreFailureOutputKey, T>(layers),
        junit_report_skipped: tracked::<JunitReportSkippedKey, T>(layers),
        junit_flaky_fail_status: tracked::<JunitFlakyFailStatusKey, T>(layers),
    }
}

// The value of a key over rules, then profiles, lent, and what is kept of where it is taken from.
// `None` where no layer sets it, and then whatever the fallback is holds.
fn found_by<'c, K: ConfigKey, R: Sets<K> + Rule, P: Sets<K>, T: TrackSource<'c>>(
    rules: &[&'c R],
    profiles: &[&'c P],
) -> (Option<&'c K::Value>, T)
    ensures { (otherwise : K.Value)
        → IsTracked T.tells R.id R.value P.value (lent_layers rules.now) (lent_layers profiles.now)
        otherwise (unwrap_or (option_copied result.0) otherwise, result.1) }
{
    let (value, source) = find_setting::<K, R, P>(rules, profiles);
    (value, T::track(source))
}

// The value of a key over overrides, then other layers, or its fallback, and what is kept of where
// it is taken from.
fn found_or_fallback<'c, K: HasFallback, P: Sets<K>, T: TrackSource<'c>>(
    overrides: &[&'c PlacedOverride],
    profiles: &[&'c P],
) -> (K::Value, T)
where
    PlacedOverride: Sets<K>,
    K::Value: Copy + 'c,
    ensures { IsTracked T.tells id_of ⟦<PlacedOverride as Sets<K>>⟧.value P.value
        (lent_layers overrides.now) (lent_layers profiles.now) K.fallback result }
{
    let (found, source) = found_by::<K, PlacedOverride, P, T>(overrides, profiles);
    match found {
        Some(value) => (*value, source),
        None => (K::fallback(), source),
    }
}

// The same over all layers of a test.
fn tracked<'l, 'c, K: HasFallback, T: TrackSource<'c>>(layers: TestLayers<'l, 'c>) -> (K::Value, T)
where
    PlacedOverride: Sets<K>,
    ProfileConfig: Sets<K>,
    K::Value: Copy + 'c,
    ensures { IsTracked T.tells id_of
        ⟦<PlacedOverride as Sets<K>>⟧.value ⟦<ProfileConfig as Sets<K>>⟧.value
        (lent_layers layers.entry.overrides.now)
        (lent_layers layers.entry.chain.now) K.fallback result }
{
    found_or_fallback::<K, ProfileConfig, T>(layers.overrides, layers.chain)
}

// `slow-timeout`, and what is kept of where it is taken from; of benchmarks `bench.slow-timeout`,
// and that alone.
fn slow_timeout_by<'l, 'c, T: TrackSource<'c>>(
    layers: TestLayers<'l, 'c>,
    mode: NextestRunMode,
) -> (SlowTimeout, T)
    ensures { IsTestSetting T.tells (layers_in layers.entry)
        (slow_timeout_by mode) (slow_timeout_or mode) result }
{
    match mode {
        NextestRunMode::Test => tracked::<SlowTimeoutKey, T>(layers),
        NextestRunMode::Benchmark => tracked::<BenchSlowTimeoutKey, T>(layers),
    }
}

// `run-extra-args`, and what is kept of where it is taken from.
fn run_extra_args_by<'l, 'c, T: TrackSource<'c>>(layers: TestLayers<'l, 'c>) -> (&'c [Text], T)
    ensures { IsCommandSetting T.tells (layers_in layers.entry)
        run_extra_args_of run_extra_args_fallback (result.0.now, result.1) }
{
    let (found, source) = found_by::<RunExtraArgsKey, PlacedOverride, ProfileConfig, T>(
        layers.overrides,
        layers.chain,
    );
    match found {
        Some(arguments) => (arguments.as_slice(), source),
        None => (&[], source),
    }
}

// `test-group`, and what is kept of where it is taken from.
fn test_group_by<'l, 'c, T: TrackSource<'c>>(layers: TestLayers<'l, 'c>) -> (TestGroupRef<'c>, T)
    ensures { IsRuleSetting T.tells (layers_in layers.entry)
        test_group_of test_group_fallback (group_of result.0, result.1) }
{
    let (found, source) = found_by::<TestGroupKey, PlacedOverride, PlacedOverride, T>(
        layers.overrides,
        &[],
    );
    match found {
        Some(group) => (TestGroupRef::new(group), source),
        None => (TestGroupRef::Global, source),
    }
}

// A profile on platforms, and the values that it has.
ghost use Rattle.std.specs.Prelude.{◌≡◌, IfOk, unwrap_or};
ghost use Rattle.std.specs.Option.{option_copied};
ghost use Rattle.nextest_config_resolution_profiles.specs.Evaluatable.{MayHaveJunit, inherits_of};
ghost use Rattle.nextest_config_resolution_profiles.specs.Finding.{FindsHeld};
ghost use Rattle.nextest_config_resolution_profiles.specs.Held.{AreSettingsFor, Holds, IsGroupFor, layers_of};
ghost use Rattle.nextest_config_resolution_settings.specs.Layers.{in_command, in_own, in_report, in_test};
ghost use Rattle.nextest_config_resolution_keys.specs.Modes.{global_timeout_by, global_timeout_or, slow_timeout_by, slow_timeout_or};
ghost use Rattle.nextest_config_resolution_keys.specs.Junit as junit_key;
ghost use Rattle.nextest_config_resolution_keys.specs.Output as output_key;
ghost use Rattle.nextest_config_resolution_keys.specs.Own as own_key;
ghost use Rattle.nextest_config_resolution_keys.specs.Run as run_key;
ghost use Rattle.nextest_config_resolution_keys.specs.Test as test_key;
ghost use Rattle.nextest_config_resolution_keys.specs.Command as command_key;
ghost use Rattle.nextest_config_resolution_keys.specs.Report as report_key;
ghost use Rattle.nextest_config_resolution_settings.specs.Nearest.{lent_layers};
ghost use Rattle.nextest_config_resolution_settings.specs.Profile.{OfProfiles};
ghost use Rattle.nextest_config_resolution_settings.specs.TestSettings.{AreSettings, group_of};
ghost use Rattle.nextest_config_resolution_settings.specs.Tracking.{TellsAll, TellsNothing};
ghost use Rattle.nextest_filtering_filters.specs.Query.{test_of};

use crate::chain_rule::ChainRule;
use crate::held::{group_on, held_on};
use nextest_config_elements_choices::{
    FailWeight, FinalStatusLevel, FlakyResult, MaxFail, NextestRunMode, StatusLevel,
    TestOutputDisplay,
};
use nextest_config_elements_values::{
    GlobalTimeout, JunitConfig, JunitFlakyFailStatus, LeakTimeout, ReportSkipPolicy, RetryPolicy,
    SlowTimeout, TestThreads, ThreadsRequired,
};
use nextest_config_resolution_filters::{Filters, Specs};
use nextest_config_resolution_keys::{
    BenchGlobalTimeoutKey, BenchSlowTimeoutKey, ConfigKey, FailFastKey, FailWeightKey,
    FailureOutputKey, FinalStatusLevelKey, FlakyResultKey, GlobalTimeoutKey, HasFallback,
    InheritsKey, JunitFlakyFailStatusKey, JunitPathKey, JunitReportNameKey, JunitReportSkippedKey,
    JunitStoreFailureOutputKey, JunitStoreSuccessOutputKey, LeakTimeoutKey, ProfileConfig,
    RetriesKey, RunExtraArgsKey, SlowTimeoutKey, StatusLevelKey, SuccessOutputKey, TestThreadsKey,
    ThreadsRequiredKey, get_value, junit_report_name_fallback,
};
use nextest_config_resolution_overrides::{NamedGroup, PlacedOverride};
use nextest_config_resolution_scripts::{PlacedScriptRule, ScriptConfig};
use nextest_config_resolution_settings::{
    CompiledDefaultFilter, Sets, SettingSource, TestGroupRef, TestLayers, TestSettings,
    TrackSource, of_profiles, set_by, settings_by, value_or_fallback,
};
use nextest_filtering_filters::TestQuery;
use nextest_text::Text;
use std::alloc::{AllocError, Global};
use std::marker::Model;

/// A profile on platforms. Each of its settings has the value that the nearest profile of its chain
/// sets, else a fallback; those of a test are also set by the rules that hold on it. Its
/// configuration tells tests apart by filters `F`, and builds by specs `S`.
pub struct EvaluatableProfile<'c, F: Filters, S: Specs> {
    pub(crate) name: &'c str,
    pub(crate) store_dir: Text,
    // Its own values first, then those of its parents one after another, and those of `default`
    // last.
    pub(crate) chain: Vec<&'c ProfileConfig>,
    pub(crate) default_filter: CompiledDefaultFilter<'c, F>,
    // In the order in which they are asked.
    pub(crate) rules: Vec<ChainRule<'c, PlacedOverride, F, S>>,
    pub(crate) script_rules: Vec<ChainRule<'c, PlacedScriptRule, F, S>>,
    pub(crate) groups: &'c [NamedGroup],
    pub(crate) scripts: &'c ScriptConfig,
}

// One call drops it, whoever holds it.
impl<'c, F: Filters, S: Specs> Drop for EvaluatableProfile<'c, F, S> {
    fn drop(self) {
        let Self {
            name: _,
            store_dir: _,
            chain: _,
            default_filter: _,
            rules: _,
            script_rules: _,
            groups: _,
            scripts: _,
        } = self;
    }
}

impl<'c, F: Filters, S: Specs> Model for EvaluatableProfile<'c, F, S> {
    ghost use Rattle.nextest_config_resolution_profiles.specs.Asking.{AreAskable};
    ghost use Rattle.nextest_config_resolution_profiles.specs.ChainRules.{rules_in, seen_rules};
    ghost use Rattle.nextest_config_resolution_profiles.specs.Evaluatable.{Evaluatable};
    ghost use Rattle.nextest_config_resolution_settings.specs.Nearest.{lent_layers};

    ghost Value = { Evaluatable F S };

    ghost view = { λ it. record {
      name = it.name.now;
      store_dir = it.store_dir;
      chain = lent_layers it.chain.items;
      default_filter = it.default_filter;
      rules = seen_rules it.rules.items;
      script_rules = seen_rules it.script_rules.items;
      groups = it.groups.now;
      scripts = it.scripts.now;
    } };

    // The default filter and those of rules serve as such, and no rule asks for groups.
    ghost invariant = { λ it.
        AreAskable F.serves_as_default F.asks_groups it.default_filter.filter.now
        (rules_in it.rules.items) (rules_in it.script_rules.items) };
}

impl<'c, F: Filters, S: Specs> Clone for EvaluatableProfile<'c, F, S> {
    ghost use Rattle.std.specs.Prelude.{◌≡◌};

    ghost is_clone = { λ original copy. copy ≡ original };

    fn clone(&self) -> Result<EvaluatableProfile<'c, F, S>, AllocError> {
        let store_dir = self.store_dir.clone()?;
        let chain = self.chain.clone()?;
        let default_filter = self.default_filter.clone()?;
        let rules = self.rules.clone()?;
        let script_rules = self.script_rules.clone()?;
        Ok(EvaluatableProfile {
            name: self.name,
            store_dir,
            chain,
            default_filter,
            rules,
            script_rules,
            groups: self.groups,
            scripts: self.scripts,
        })
    }
}

impl<'c, F: Filters, S: Specs> EvaluatableProfile<'c, F, S> {
    /// The profiles that it is read from, lent: itself, its parents one after another, and
    /// `default`.
    pub fn chain(&self) -> &[&'c ProfileConfig]
        ensures { lent_layers result.now ≡ self.now.chain }
    {
        self.chain.as_slice()
    }

    /// Its name.
    pub fn name(&self) -> &'c str
        ensures { result.now ≡ self.now.name }
    {
        self.name
    }

    /// The parent that it sets itself, if it sets one.
    pub fn inherits(&self) -> Option<&'c str>
        ensures { option_copied result ≡ inherits_of self.now.chain }
    {
        text_of(get_value::<InheritsKey, _>(*self.chain().first()?))
    }

    /// The directory of its files.
    pub fn store_dir(&self) -> &str
        ensures { result.now ≡ self.now.store_dir }
    {
        self.store_dir.as_str()
    }

    /// `retries`: how a failing test is tried again.
    pub fn retries(&self) -> RetryPolicy
        ensures { OfProfiles (in_test test_key.retries_of) self.now.chain
            test_key.retries_fallback result }
    {
        self.setting::<RetriesKey>()
    }

    /// `flaky-result`: what becomes of a test that passes on a later attempt than its first.
    pub fn flaky_result(&self) -> FlakyResult
        ensures { OfProfiles (in_test test_key.flaky_result_of) self.now.chain
            test_key.flaky_result_fallback result }
    {
        self.setting::<FlakyResultKey>()
    }

    /// `fail-weight`: how much a test weighs that fails.
    pub fn fail_weight(&self) -> FailWeight
        ensures { OfProfiles (in_test test_key.fail_weight_of) self.now.chain
            test_key.fail_weight_fallback result }
    {
        self.setting::<FailWeightKey>()
    }

    /// `test-threads`: how many tests run at a time.
    pub fn test_threads(&self) -> TestThreads
        ensures { OfProfiles (in_own own_key.test_threads_of) self.now.chain
            run_key.test_threads_fallback result }
    {
        self.setting::<TestThreadsKey>()
    }

    /// `threads-required`: how many threads a test takes.
    pub fn threads_required(&self) -> ThreadsRequired
        ensures { OfProfiles (in_test test_key.threads_required_of) self.now.chain
            test_key.threads_required_fallback result }
    {
        self.setting::<ThreadsRequiredKey>()
    }

    /// `leak-timeout`: how long handles may stay open behind a test.
    pub fn leak_timeout(&self) -> LeakTimeout
        ensures { OfProfiles (in_test test_key.leak_timeout_of) self.now.chain
            test_key.leak_timeout_fallback result }
    {
        self.setting::<LeakTimeoutKey>()
    }

    /// `status-level`: which statuses are shown while tests run.
    pub fn status_level(&self) -> StatusLevel
        ensures { OfProfiles (in_own own_key.status_level_of) self.now.chain
            output_key.status_level_fallback result }
    {
        self.setting::<StatusLevelKey>()
    }

    /// `final-status-level`: which statuses are shown at the end of a run.
    pub fn final_status_level(&self) -> FinalStatusLevel
        ensures { OfProfiles (in_own own_key.final_status_level_of) self.now.chain
            output_key.final_status_level_fallback result }
    {
        self.setting::<FinalStatusLevelKey>()
    }

    /// `failure-output`: when the output of a test is shown that fails.
    pub fn failure_output(&self) -> TestOutputDisplay
        ensures { OfProfiles (in_report report_key.failure_output_of) self.now.chain
            output_key.failure_output_fallback result }
    {
        self.setting::<FailureOutputKey>()
    }

    /// `success-output`: when the output of a test is shown that passes.
    pub fn success_output(&self) -> TestOutputDisplay
        ensures { OfProfiles (in_report report_key.success_output_of) self.now.chain
            output_key.success_output_fallback result }
    {
        self.setting::<SuccessOutputKey>()
    }

    /// `fail-fast`: when failing tests stop a run.
    pub fn max_fail(&self) -> MaxFail
        ensures { OfProfiles (in_own own_key.fail_fast_of) self.now.chain
            run_key.fail_fast_fallback result }
    {
        self.setting::<FailFastKey>()
    }

    /// `slow-timeout`: when a test is slow, and when it is ended for that; of benchmarks
    /// `bench.slow-timeout`, and that alone.
    pub fn slow_timeout(&self, mode: NextestRunMode) -> SlowTimeout
        ensures { OfProfiles (in_test (slow_timeout_by mode)) self.now.chain
            (slow_timeout_or mode) result }
    {
        match mode {
            NextestRunMode::Test => self.setting::<SlowTimeoutKey>(),
            NextestRunMode::Benchmark => self.setting::<BenchSlowTimeoutKey>(),
        }
    }

    /// `global-timeout`: how long a run may take; of benchmarks `bench.global-timeout`, and that
    /// alone.
    pub fn global_timeout(&self, mode: NextestRunMode) -> GlobalTimeout
        ensures { OfProfiles (in_own (global_timeout_by mode)) self.now.chain
            (global_timeout_or mode) result }
    {
        match mode {
            NextestRunMode::Test => self.setting::<GlobalTimeoutKey>(),
            NextestRunMode::Benchmark => self.setting::<BenchGlobalTimeoutKey>(),
        }
    }

    /// `run-extra-args`: the arguments that tests are run with besides.
    pub fn run_extra_args(&self) -> &'c [Text]
        ensures { OfProfiles (in_command command_key.run_extra_args_of) self.now.chain
            command_key.run_extra_args_fallback result.now }
    {
        match self.value_of::<RunExtraArgsKey>() {
            Some(arguments) => arguments.as_slice(),
            None => &[],
        }
    }

    /// `default-filter`: the filter of the tests that are run where none is asked for.
    pub fn default_filter(&self) -> CompiledDefaultFilter<'c, F>
        ensures { result ≡ self.now.default_filter }
    {
        CompiledDefaultFilter {
            filter: self.default_filter.filter,
            profile: self.default_filter.profile,
            section: self.default_filter.section,
        }
    }

    /// The report in JUnit's form. There is one exactly if a profile of the chain sets
    /// `junit.path`.
    pub fn junit(&self) -> Option<JunitConfig<'c>>
        ensures { MayHaveJunit self.now.chain result }
    {
        match text_of(set_by::<JunitPathKey, ProfileConfig>(self.chain())) {
            None => None,
            Some(path) => Some(JunitConfig::new(
                path,
                self.junit_report_name(),
                self.junit_store_success_output(),
                self.junit_store_failure_output(),
                self.junit_report_skipped(),
                self.junit_flaky_fail_status(),
            )),
        }
    }

    /// The groups of tests, as they are defined. Of several with one name the last holds.
    pub fn test_group_config(&self) -> &'c [NamedGroup]
        ensures { result.now ≡ self.now.groups }
    {
        self.groups
    }

    /// The scripts, as they are defined.
    pub fn script_config(&self) -> &'c ScriptConfig
        ensures { result.now ≡ self.now.scripts }
    {
        self.scripts
    }

    /// The settings of a test: each is that of the nearest rule that holds on the test and sets it,
    /// else that of the nearest profile of the chain that does, else a fallback; the wrapper script
    /// is the one that the nearest script rule names that holds on the test and names one.
    ///
    /// # Errors
    ///
    /// It fails only on allocation.
    pub fn settings_for(
        &self,
        alloc: Global,
        mode: NextestRunMode,
        query: &TestQuery<'_>,
    ) -> Result<TestSettings<'c>, AllocError>
        ensures { IfOk result
            (AreSettingsFor F.on_test TellsNothing self.now mode (test_of query.now)) }
    {
        self.settings_on::<()>(alloc, mode, query)
    }

    /// The settings of a test, as `settings_for` gives them, and where each of them is taken from.
    ///
    /// # Errors
    ///
    /// It fails only on allocation.
    pub fn settings_with_source_for(
        &self,
        alloc: Global,
        mode: NextestRunMode,
        query: &TestQuery<'_>,
    ) -> Result<TestSettings<'c, SettingSource<'c>>, AllocError>
        ensures { IfOk result
            (AreSettingsFor F.on_test TellsAll self.now mode (test_of query.now)) }
    {
        self.settings_on::<SettingSource<'c>>(alloc, mode, query)
    }

    /// The group of a test: that of the nearest rule that holds on the test and sets one, else the
    /// global one.
    ///
    /// # Errors
    ///
    /// It fails only on allocation.
    pub fn group_for(
        &self,
        alloc: Global,
        query: &TestQuery<'_>,
    ) -> Result<TestGroupRef<'c>, AllocError>
        ensures { IfOk result
            (λ it. IsGroupFor F.on_test self.now (test_of query.now) (group_of it)) }
    {
        group_on(
            alloc,
            self.rules.as_slice(),
            self.default_filter.filter,
            query,
        )
    }

    // The settings of a test, with what is kept of where each of them is taken from.
    fn settings_on<T: TrackSource<'c>>(
        &self,
        alloc: Global,
        mode: NextestRunMode,
        query: &TestQuery<'_>,
    ) -> Result<TestSettings<'c, T>, AllocError>
        ensures { IfOk result (AreSettingsFor F.on_test T.tells self.now mode (test_of query.now)) }
    {
        let held = self.held(alloc, query)?;
        let scripts = self.held_scripts(alloc, query)?;
        Ok(self.settings_of::<T>(mode, held.as_slice(), scripts.as_slice()))
    }

    // The settings of a test on which these rules hold.
    pub(crate) fn settings_of<'l, T: TrackSource<'c>>(
        &'l self,
        mode: NextestRunMode,
        overrides: &'l [&'c PlacedOverride],
        scripts: &'l [&'c PlacedScriptRule],
    ) -> TestSettings<'c, T>
        ensures { AreSettings T.tells mode
            (layers_of self.now (lent_layers overrides.now) (lent_layers scripts.now)) result }
    {
        let layers = TestLayers {
            overrides,
            scripts,
            wrappers: self.scripts.wrapper.as_slice(),
            chain: self.chain(),
        };
        settings_by::<T>(layers, mode)
    }

    // The overrides that hold on a test, in their order.
    fn held(
        &self,
        alloc: Global,
        query: &TestQuery<'_>,
    ) -> Result<Vec<&'c PlacedOverride>, AllocError>
        ensures { IfOk result (λ it. FindsHeld (Holds F.on_test self.now.default_filter.filter.now
            (test_of query.now)) self.now.rules (lent_layers it.items)) }
    {
        held_on(
            alloc,
            self.rules.as_slice(),
            self.default_filter.filter,
            query,
        )
    }

    // The script rules that hold on a test, in their order.
    fn held_scripts(
        &self,
        alloc: Global,
        query: &TestQuery<'_>,
    ) -> Result<Vec<&'c PlacedScriptRule>, AllocError>
        ensures { IfOk result (λ it. FindsHeld (Holds F.on_test self.now.default_filter.filter.now
            (test_of query.now)) self.now.script_rules (lent_layers it.items)) }
    {
        held_on(
            alloc,
            self.script_rules.as_slice(),
            self.default_filter.filter,
            query,
        )
    }

    // The value that the nearest profile of the chain sets for a key, lent. `None` where none of
    // them sets it, and then whatever the fallback is holds.
    fn value_of<K: ConfigKey>(&self) -> Option<&'c K::Value>
    where
        ProfileConfig: Sets<K>,
        ensures { (fallback : K.Value) → OfProfiles ⟦<ProfileConfig as Sets<K>>⟧.value
            self.now.chain fallback (unwrap_or (option_copied result) fallback) }
    {
        of_profiles::<K, ProfileConfig>(self.chain())
    }

    // The value of a setting: that one, else the fallback of its key.
    fn setting<K: HasFallback>(&self) -> K::Value
    where
        ProfileConfig: Sets<K>,
        K::Value: Copy + 'c,
        ensures { OfProfiles ⟦<ProfileConfig as Sets<K>>⟧.value
            self.now.chain K.fallback result }
    {
        value_or_fallback::<K, ProfileConfig>(self.chain())
    }

    // `junit.report-name`: the name that stands in the report.
    fn junit_report_name(&self) -> &'c str
        ensures { OfProfiles (in_own own_key.junit_report_name_of) self.now.chain
            junit_key.junit_report_name_fallback result.now }
    {
        match self.value_of::<JunitReportNameKey>() {
            Some(name) => name.as_str(),
            None => junit_report_name_fallback(),
        }
    }

    // `junit.store-success-output`: whether the report has the outputs of tests that pass.
    fn junit_store_success_output(&self) -> bool
        ensures { OfProfiles (in_report report_key.junit_store_success_output_of) self.now.chain
            junit_key.junit_store_success_output_fallback result }
    {
        self.setting::<JunitStoreSuccessOutputKey>()
    }

    // `junit.store-failure-output`: whether it has the outputs of tests that fail.
    fn junit_store_failure_output(&self) -> bool
        ensures { OfProfiles (in_report report_key.junit_store_failure_output_of) self.now.chain
            junit_key.junit_store_failure_output_fallback result }
    {
        self.setting::<JunitStoreFailureOutputKey>()
    }

    // `junit.report-skipped`: which skipped tests are reported.
    fn junit_report_skipped(&self) -> ReportSkipPolicy
        ensures { OfProfiles (in_report report_key.junit_report_skipped_of) self.now.chain
            junit_key.junit_report_skipped_fallback result }
    {
        self.setting::<JunitReportSkippedKey>()
    }

    // `junit.flaky-fail-status`: how a test is reported that fails since it is flaky.
    fn junit_flaky_fail_status(&self) -> JunitFlakyFailStatus
        ensures { OfProfiles (in_report report_key.junit_flaky_fail_status_of) self.now.chain
            junit_key.junit_flaky_fail_status_fallback result }
    {
        self.setting::<JunitFlakyFailStatusKey>()
    }
}

// A text that may be there, lent.
fn text_of(text: Option<&Text>) -> Option<&str>
    ensures { option_copied result ≡ option_copied text.entry }
{
    match text {
        Some(text) => Some(text.as_str()),
        None => None,
    }
}

//! What holds of whole configurations. Each law is the contract of a function that does nothing.
ghost use Rattle.std.specs.Prelude.{[], ◌∷◌};
ghost use Rattle.nextest_config_resolution_keys.specs.Junit as junit_key;
ghost use Rattle.nextest_config_resolution_keys.specs.Own as own_key;
ghost use Rattle.nextest_config_resolution_profiles.specs.Agreeing.{ProfileIsolation};
ghost use Rattle.nextest_config_resolution_profiles.specs.AnswerAlike.{IsolatesProfiles};
ghost use Rattle.nextest_config_resolution_profiles.specs.BuiltInLaws.{Accepted, HasAllBut, NoFallback, ReadAs, WrittenAs};
ghost use Rattle.nextest_config_resolution_profiles.specs.Kept.{KeptProfile};
ghost use Rattle.nextest_config_resolution_profiles.specs.Languages.{IsFilterIn};
ghost use Rattle.nextest_config_resolution_profiles.specs.Laws.{DefaultIsRead, NeverFallsBack, NothingIsUndefined, OneProfile, RulesAreRead, SameChain, ScriptRulesAreRead, SetsStoreDir, SomeChain, SomeConfig};
ghost use Rattle.nextest_config_resolution_profiles.specs.Memberships.{PrecomputedMembers};
ghost use Rattle.nextest_config_resolution_profiles.specs.RuleLaws.{EarlyDefault, EnabledIsDefined, GroupOfSettings, MoreEnableNoFewer, NoRules, NumberedRows, OneHeld, OneScriptsHeld, SameSettingsFor, SameSourcesFor, SomeGroupFor, SomeSettingsFor};

use crate::default_config::DEFAULT_CONFIG;
use nextest_config_resolution_filters::{Filters, Specs};
use nextest_config_resolution_keys::laws::reads_each;
use nextest_config_resolution_keys::{HasValues, ListedKey, ProfileConfig};
use nextest_config_resolution_settings::{Sets, TrackSource};

/// A profile of what is built in is one of every configuration that is loaded over it.
pub fn kept_profile<F: Filters, S: Specs>()
    ensures { (cx : F.Cx)
        → KeptProfile (IsFilterIn F.is_parsed F.has_runtime_leaves cx) S.is_parsed F.is_too_deep }
{}

/// The chain of a profile has one list of values.
pub fn one_profile()
    ensures { OneProfile }
{}

/// It can't be that sources neither come to a configuration nor break a rule; and in a
/// configuration a name has a chain, or no profile has that name.
pub fn some_profile<F: Filters, S: Specs>()
    ensures config { (cx : F.Cx)
        → SomeConfig (IsFilterIn F.is_parsed F.has_runtime_leaves cx) S.is_parsed F.is_too_deep }
    ensures chain { (cx : F.Cx)
        → SomeChain (IsFilterIn F.is_parsed F.has_runtime_leaves cx) S.is_parsed F.is_too_deep }
{}

/// The default filter that a profile of a configuration tells is the one that its text is in the
/// workspace.
pub fn default_is_read<F: Filters, S: Specs>()
    ensures { (cx : F.Cx)
        → DefaultIsRead (IsFilterIn F.is_parsed F.has_runtime_leaves cx) S.is_parsed F.is_too_deep }
{}

/// Each rule of a configuration has the filters and platform specs that its texts are in the
/// workspace.
pub fn rules_are_read<F: Filters, S: Specs>()
    ensures scripts { (cx : F.Cx) → ScriptRulesAreRead
        (IsFilterIn F.is_parsed F.has_runtime_leaves cx) S.is_parsed F.is_too_deep }
    ensures overrides { (cx : F.Cx)
        → RulesAreRead (IsFilterIn F.is_parsed F.has_runtime_leaves cx) S.is_parsed F.is_too_deep }
{}

/// Each script that a script rule of a profile names is found, and each group that one of its
/// overrides names is defined.
pub fn nothing_is_undefined<F: Filters, S: Specs>()
    ensures { (cx : F.Cx) → NothingIsUndefined
        (IsFilterIn F.is_parsed F.has_runtime_leaves cx) S.is_parsed F.is_too_deep }
{}

/// An enabled setup script is one that the configuration defines, whichever tests it is enabled
/// for.
pub fn enabled_is_defined<F: Filters, S: Specs>()
    ensures { (cx : F.Cx) → EnabledIsDefined (IsFilterIn F.is_parsed F.has_runtime_leaves cx)
        S.is_parsed F.is_too_deep S.value_on F.on_test }
{}

/// Profiles of other names change nothing: two lists of sources whose files agree but in profiles
/// of names other than these come to configurations with the same values, overrides and script
/// rules in the profiles of these names, and with the same groups, scripts and store. So a profile
/// answers the same in both, where these are the names of its chain: it has the same name,
/// directory, chain, groups and scripts, default filters that no question tells apart, and for each
/// test the same settings, for tests the same groups and setup scripts, and for each binary the
/// same wrapper script.
pub fn profile_isolation<'p, F: Filters, S: Specs, T: TrackSource<'p>>()
    ensures values { (cx : F.Cx) → ProfileIsolation
        (IsFilterIn F.is_parsed F.has_runtime_leaves cx) S.is_parsed F.is_too_deep }
    ensures answers { (cx : F.Cx) → IsolatesProfiles F.on_binary
        F.on_test F.asks_groups F.has_runtime_leaves F.serves_as_default T.tells S.value_on
        (IsFilterIn F.is_parsed F.has_runtime_leaves cx) S.is_parsed F.is_too_deep }
{}

/// More tests enable no fewer setup scripts.
pub fn more_enable_no_fewer<F: Filters, S: Specs>()
    ensures { MoreEnableNoFewer F.on_test S }
{}

/// The chain of a profile hangs on the profiles in it alone: others that have the same values under
/// their names have the same one.
pub fn same_chain()
    ensures { SameChain }
{}

/// The text of the built-in configuration is a TOML document, and says just what its tree has.
pub fn written_as()
    ensures { WrittenAs DEFAULT_CONFIG.now }
{}

/// The built-in configuration is read as the values of its two profiles: `default` sets each
/// setting that has a fallback, and to that, and `default-miri` sets nothing. It has neither rules
/// nor groups.
pub fn read_as()
    ensures { ReadAs }
{}

/// The profiles of the built-in configuration keep the rules of inheritance.
pub fn accepted()
    ensures { Accepted }
{}

/// Its `default` has all keys of a profile but `inherits` and the path of JUnit's report.
pub fn has_all_but()
    ensures { HasAllBut (own_key.inherits.path ∷ junit_key.junit_path.path ∷ []) }
{}

/// A chain that ends with its `default` sets each key that it has, so that no fallback is used.
pub fn no_fallback<K: ListedKey>()
where
    ProfileConfig: HasValues<K::Values>,
    ensures { NoFallback K.key ⟦<ProfileConfig as Sets<K>>⟧.value }
{
    read_as();
    reads_each::<K, ProfileConfig>();
}

/// A configuration sets the directory of its store.
pub fn sets_store_dir<F: Filters, S: Specs>()
    ensures { (cx : F.Cx) → SetsStoreDir
        (IsFilterIn F.is_parsed F.has_runtime_leaves cx) S.is_parsed F.is_too_deep }
{}

/// Each chain of a configuration sets each key that the built-in `default` has, whatever files say,
/// so that no fallback is ever used.
pub fn never_falls_back<F: Filters, S: Specs, K: ListedKey>()
where
    ProfileConfig: HasValues<K::Values>,
    ensures { (cx : F.Cx) → NeverFallsBack (IsFilterIn F.is_parsed F.has_runtime_leaves cx)
        S.is_parsed F.is_too_deep K.key ⟦<ProfileConfig as Sets<K>>⟧.value }
{
    reads_each::<K, ProfileConfig>();
}

/// Where no rule holds for what is built for the target and sets a default filter, it is that of
/// the profiles.
pub fn early_default<F: Filters, S: Specs>()
    ensures { EarlyDefault F S }
{}

/// The rules that hold on a test are one list, and so the test has one list of settings, each taken
/// from one place.
pub fn one_held<'p, F: Filters, S: Specs, T: TrackSource<'p>, U: TrackSource<'p>>()
    ensures held { OneHeld F.on_test S }
    ensures scripts { OneScriptsHeld F.on_test S }
    ensures settings { SameSettingsFor F.on_test S T.tells U.tells }
    ensures sources { SameSourcesFor F.on_test S T.tells }
{}

/// By each profile of a configuration, and on each platforms, each test has settings, and a group.
pub fn some_settings<'p, F: Filters, S: Specs, T: TrackSource<'p>>()
    ensures settings { (cx : F.Cx) → SomeSettingsFor (IsFilterIn F.is_parsed F.has_runtime_leaves
        cx) S.is_parsed F.is_too_deep S.value_on F.on_test T.tells }
    ensures group { (cx : F.Cx) → SomeGroupFor (IsFilterIn F.is_parsed F.has_runtime_leaves cx)
        S.is_parsed F.is_too_deep S.value_on F.on_test }
{}

/// The group of a test is the one that its settings have.
pub fn group_of_settings<'p, F: Filters, S: Specs, T: TrackSource<'p>>()
    ensures { GroupOfSettings F.on_test S T.tells }
{}

/// Memberships that were found before, for tests of which no two have one name in binaries of one
/// id, tell of each of these tests the group that it has, and of any other test the global one.
pub fn precomputed_members<F: Filters, S: Specs>()
    ensures { PrecomputedMembers F.on_test S }
{}

/// A profile without rules has the settings of its chain, whatever the test.
pub fn no_rules<'p, F: Filters, S: Specs, T: TrackSource<'p>>()
    ensures { NoRules F.on_test S T.tells }
{}

/// Rows of as many rules, at most 64, are one where their numbers are.
pub fn numbered_rows()
    ensures { NumberedRows }
{}

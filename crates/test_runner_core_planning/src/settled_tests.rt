// The selected tests with their settings, and the setup scripts that are enabled for them.
ghost use Rattle.std.specs.Prelude.{◌≡◌, ◌+◌, ◌++◌, ℕ, List, IfOk, IfSome, OnOk, length, map, slice_get, true};
ghost use Rattle.std.specs.List.Sorted.{IsPermutation};
ghost use Rattle.nextest_config_elements_choices.specs.declared.run_mode.NextestRunMode.{NextestRunMode};
ghost use Rattle.nextest_config_resolution_profiles.specs.Enabled.{AreNamesOf, HasEnabled, IsEnabled};
ghost use Rattle.nextest_config_resolution_profiles.specs.Evaluatable.{Evaluatable};
ghost use Rattle.nextest_config_resolution_profiles.specs.HeldRules.{AreHeldColumns, held_row, row_number, rule_count};
ghost use Rattle.nextest_filtering_compiling.specs.Filtersets.{HasOnTest};
ghost use Rattle.nextest_filtering_compiling.specs.declared.filterset.Filterset.{Filterset};
ghost use Rattle.nextest_filtering_filters.specs.Query.{Test};
ghost use Rattle.test_runner_core_listing.specs.Answers.{query_of};
ghost use Rattle.test_runner_core_listing.specs.Selected.{tests_in, tests_of_one};
ghost use Rattle.test_runner_core_plan.specs.declared.plan_settings.PlanSettings.{PlanSettings};
ghost use Rattle.test_runner_core_planning.specs.Plan.{with_settings};
ghost use Rattle.test_runner_core_platforms.specs.declared.platform_spec.PlatformSpec.{PlatformSpec};
ghost use Rattle.test_runner_core_planning.specs.Tests.{AreShared, HasForEach, HasForRow};
ghost use Rattle.test_runner_core_workspace.specs.declared.record.Binary.{Binary};

use crate::by_priority::{SettledBinary, tests_by_priority};
use nextest_config_elements_choices::NextestRunMode;
use nextest_config_elements_values::TestPriority;
use nextest_config_resolution_profiles::{EnabledNames, EvaluatableProfile, HeldRules};
use nextest_filtering_compiling::Filterset;
use nextest_run_events_results::RustBinaryId;
use nextest_text::{Listing, Text, Texts};
use std::alloc::{AllocError, Global};
use std::collections::BTreeMap;
use test_runner_core_listing::{SelectedTests, query_of};
use test_runner_core_plan::{PlanTest, SharedSettings};
use test_runner_core_platforms::PlatformSpec;
use test_runner_core_settings::owned_settings;
use test_runner_core_workspace::Binary;

// The selected tests, each with its settings, and the names of the setup scripts that are enabled
// for them.
#[derive(Drop)]
pub(crate) struct SettledTests {
    pub(crate) tests: Vec<PlanTest>,
    pub(crate) scripts: Listing<Text>,
}

// The settings of each test on which just the rules of a row hold.
pub(crate) struct RowSettings {
    row: Vec<bool>,
    settings: SharedSettings,
}

// One call drops it, whoever holds it.
impl Drop for RowSettings {
    fn drop(self) {
        let Self {
            row: _,
            settings: _,
        } = self;
    }
}

// Settings that tests share, by a number of the row.
type SettingsByRow = BTreeMap<u64, RowSettings>;

// The selected tests, each with the settings that a profile has for it, in any order, and the setup
// scripts that the profile enables for them. Tests on which the same rules hold share their
// settings.
pub(crate) fn settled_tests(
    alloc: Global,
    profile: &EvaluatableProfile<'_, Filterset, PlatformSpec>,
    mode: NextestRunMode,
    selected: Vec<SelectedTests<'_>>,
) -> Result<SettledTests, AllocError>
    ensures tests { (of_test : Test → PlanSettings) → HasForEach profile.now mode of_test
        → IfOk result (λ it. IsPermutation
        (map (with_settings of_test) (tests_in selected.entry.items)) it.tests.items) }
    ensures scripts { IfOk result (λ it.
        AreNamesOf (IsEnabled HasOnTest profile.now (tests_in selected.entry.items)) it.scripts) }
{
    let mut shared = BTreeMap::new(alloc);
    let mut binaries = Vec::with_capacity(alloc, selected.len())?;
    let mut names = EnabledNames::new(alloc);
    for of_binary in selected {
        binaries.push(settled_binary(alloc, profile, mode, of_binary, &mut shared, &mut names)?)?;
    }
    let priorities = priorities_of(alloc, &shared)?;
    let tests = tests_by_priority(alloc, binaries.as_slice(), priorities.as_slice())?;
    let scripts = names.listed(alloc)?;
    Ok(SettledTests { tests, scripts })
}

// The priorities of some settings, in their order. Nothing is promised of them.
fn priorities_of(alloc: Global, shared: &SettingsByRow) -> Result<Vec<TestPriority>, AllocError> {
    let mut priorities = Vec::with_capacity(alloc, shared.len())?;
    for of_row in shared.values() {
        priorities.push(of_row.settings.priority)?;
    }
    priorities.sort_unstable();
    priorities.dedup();
    Ok(priorities)
}

// The selected tests of a binary with their settings. Adds the names of the setup scripts that are
// enabled for them, and to what is shared the settings of each row of rules that is new there.
fn settled_binary(
    alloc: Global,
    profile: &EvaluatableProfile<'_, Filterset, PlatformSpec>,
    mode: NextestRunMode,
    of_binary: SelectedTests<'_>,
    shared: &mut SettingsByRow,
    scripts: &mut EnabledNames,
) -> Result<SettledBinary, AllocError>
    requires { AreShared profile.now mode shared.old }
    ensures shared { OnOk result (AreShared profile.now mode shared.new) }
    ensures tests { (of_test : Test → PlanSettings) → HasForEach profile.now mode of_test
        → IfOk result (λ tests. tests ≡ map (with_settings of_test) (tests_of_one of_binary.entry)) }
    ensures scripts { (before : List Test) → HasEnabled HasOnTest profile.now before scripts.old
        → OnOk result
        (HasEnabled HasOnTest profile.now (before ++ tests_of_one of_binary.entry) scripts.new) }
{
    let SelectedTests { binary, names } = of_binary;
    let held = held_rules_of(alloc, profile, binary, &names)?;
    profile.add_scripts(alloc, &held, names.len(), scripts)?;
    let settings = settings_of_each(alloc, profile, mode, &held, names.len(), shared)?;
    Ok(SettledBinary {
        id: RustBinaryId::new(alloc, binary.id.as_str())?,
        names,
        settings,
    })
}

// The settings of so many tests of a binary, on which these rules hold.
fn settings_of_each(
    alloc: Global,
    profile: &EvaluatableProfile<'_, Filterset, PlatformSpec>,
    mode: NextestRunMode,
    held: &HeldRules,
    count: usize,
    shared: &mut SettingsByRow,
) -> Result<Vec<SharedSettings>, AllocError>
    requires shared { AreShared profile.now mode shared.old }
    requires counted { rule_count held.now
        ≡ length profile.now.rules + length profile.now.script_rules }
    ensures shared { OnOk result (AreShared profile.now mode shared.new) }
    ensures count { IfOk result (λ settings. length settings.items ≡ count) }
    ensures settings { IfOk result (λ settings. (place : ℕ) → IfSome
        (slice_get settings.items place) (HasForRow profile.now mode (held_row place held.now))) }
{
    let numbers = held.numbers(alloc, count)?;
    let mut each = Vec::with_capacity(alloc, count)?;
    for place in 0..count {
        let number = numbers[place];
        let settings = settings_at(alloc, profile, mode, held, place, number, shared)?;
        each.push(settings)?;
    }
    Ok(each)
}

// Which rules of a profile hold on the tests of a binary with these names, found at once for all of
// them.
fn held_rules_of(
    alloc: Global,
    profile: &EvaluatableProfile<'_, Filterset, PlatformSpec>,
    binary: &Binary,
    names: &Texts,
) -> Result<HeldRules, AllocError>
    ensures { IfOk result (AreHeldColumns HasOnTest profile.now (query_of binary.now) names.now) }
{
    let texts = names.to_strs()?;
    profile.held_rules(alloc, &query_of(binary), texts.as_slice())
}

// The settings of each test on which just those rules hold that hold on the one at a place: what is
// shared has them, under the number of its row, or gets them.
fn settings_at(
    alloc: Global,
    profile: &EvaluatableProfile<'_, Filterset, PlatformSpec>,
    mode: NextestRunMode,
    held: &HeldRules,
    place: usize,
    number: u64,
    shared: &mut SettingsByRow,
) -> Result<SharedSettings, AllocError>
    requires shared { AreShared profile.now mode shared.old }
    requires counted { rule_count held.now
        ≡ length profile.now.rules + length profile.now.script_rules }
    requires numbered { number ≡ row_number (held_row place held.now) }
    ensures shared { OnOk result (AreShared profile.now mode shared.new) }
    ensures settings { IfOk result (HasForRow profile.now mode (held_row place held.now)) }
{
    if let Some(settings) = shared_at(alloc, held, place, number, shared)? {
        return Ok(settings);
    }
    let row = row_at(alloc, held, place)?;
    new_settings(alloc, profile, mode, row.as_slice(), number, shared)
}

// The settings that are shared for the row of the test at a place, which has this number.
fn shared_at(
    alloc: Global,
    held: &HeldRules,
    place: usize,
    number: u64,
    shared: &SettingsByRow,
) -> Result<Option<SharedSettings>, AllocError>
    ensures { (profile : Evaluatable Filterset PlatformSpec) (mode : NextestRunMode)
        → AreShared profile mode shared.now
        → rule_count held.now ≡ length profile.rules + length profile.script_rules
        → number ≡ row_number (held_row place held.now)
        → IfOk result (λ found. IfSome found (HasForRow profile mode (held_row place held.now))) }
{
    let Some(found) = shared.get(&number) else {
        return Ok(None);
    };
    if !is_row_at(alloc, found.row.as_slice(), held, place)? {
        return Ok(None);
    }
    Ok(Some(found.settings.clone()?))
}

// Whether a row that has as many values, and the number, of that of the test at a place is this
// one. Up to 64 rules each row has its own number; of more rules rows may have one number, and then
// that of the test is built, which costs time and memory.
fn is_row_at(
    alloc: Global,
    row: &[bool],
    held: &HeldRules,
    place: usize,
) -> Result<bool, AllocError>
    ensures { IfOk result (λ is. is ≡ true → length row.now ≡ rule_count held.now
        → row_number row.now ≡ row_number (held_row place held.now)
        → row.now ≡ held_row place held.now) }
{
    if held.count() <= 64 {
        return Ok(true);
    }
    let other = row_at(alloc, held, place)?;
    Ok(row == other.as_slice())
}

// The row of the rules that hold on the test at a place.
fn row_at(alloc: Global, held: &HeldRules, place: usize) -> Result<Vec<bool>, AllocError>
    ensures { IfOk result (λ it. it.items ≡ held_row place held.now) }
{
    let mut row = Vec::with_capacity(alloc, held.count())?;
    held.row(place, &mut row)?;
    Ok(row)
}

// The settings of each test on which just the rules of a row hold, found now, and added to what is
// shared. They take the place of those of another row with its number.
fn new_settings(
    alloc: Global,
    profile: &EvaluatableProfile<'_, Filterset, PlatformSpec>,
    mode: NextestRunMode,
    row: &[bool],
    number: u64,
    shared: &mut SettingsByRow,
) -> Result<SharedSettings, AllocError>
    requires shared { AreShared profile.now mode shared.old }
    requires counted { length row.now
        ≡ length profile.now.rules + length profile.now.script_rules }
    requires numbered { number ≡ row_number row.now }
    ensures shared { OnOk result (AreShared profile.now mode shared.new) }
    ensures settings { IfOk result (HasForRow profile.now mode row.now) }
{
    let settings = settings_by_row(alloc, profile, mode, row)?;
    let of_row = RowSettings {
        row: Vec::from_slice(alloc, row)?,
        settings: settings.clone()?,
    };
    shared.insert(number, of_row)?;
    Ok(settings)
}

// The settings of each test on which just the rules of a row hold.
fn settings_by_row(
    alloc: Global,
    profile: &EvaluatableProfile<'_, Filterset, PlatformSpec>,
    mode: NextestRunMode,
    row: &[bool],
) -> Result<SharedSettings, AllocError>
    ensures { IfOk result (HasForRow profile.now mode row.now) }
{
    match profile.settings_by_rules(alloc, mode, row) {
        Ok(settings) => SharedSettings::new(alloc, owned_settings(alloc, &settings)?),
        Err(error) => Err(error),
    }
}

// Which rules of a profile hold on the tests of a binary, found at once for all of them.
ghost use Rattle.std.specs.Prelude.{◌≡◌, ◌<◌, ◌++◌, ◌∷◌, ℕ, Bool, List, [], Some, All, IfOk, OnOk, drop, false, if◌then◌else◌, length, map, slice_index, true};
ghost use Rattle.nextest_config_resolution_profiles.specs.Asking.{IsAskable};
ghost use Rattle.nextest_config_resolution_profiles.specs.ChainRules.{rule_in, rules_in, seen_rule, seen_rules};
ghost use Rattle.nextest_config_resolution_profiles.specs.Held.{AreSettingsFor, placed_of};
ghost use Rattle.nextest_config_resolution_profiles.specs.Carried.{AreCarried, number_with};
ghost use Rattle.nextest_config_resolution_profiles.specs.HeldRules.{AreColumns, AreHeldColumns, AreNumbers, IsColumn, IsHeldRow, TellsEach, held_row, next_weight, rule_count, rules_at, row_at, value_at};
ghost use Rattle.nextest_config_resolution_settings.specs.Nearest.{lent_layers};
ghost use Rattle.nextest_config_resolution_settings.specs.Tracking.{TellsNothing};
ghost use Rattle.nextest_filtering_filters.specs.Query.{Test, binary_of};

use crate::chain_rule::ChainRule;
use crate::evaluatable_profile::EvaluatableProfile;
use nextest_config_elements_choices::NextestRunMode;
use nextest_config_resolution_filters::{Filters, Specs};
use nextest_config_resolution_overrides::PlacedOverride;
use nextest_config_resolution_scripts::PlacedScriptRule;
use nextest_config_resolution_settings::TestSettings;
use nextest_filtering_filters::BinaryQuery;
use std::alloc::{AllocError, Global};
use std::marker::Model;

/// Which rules of a profile hold on some tests of a binary: for each override, and for each script
/// rule, a list of truth values, one a test. In a clause it is these lists; a list that ends before
/// a test says that its rule doesn't hold there.
pub struct HeldRules {
    overrides: Vec<Vec<bool>>,
    scripts: Vec<Vec<bool>>,
}

// One call drops it, whoever holds it.
impl Drop for HeldRules {
    fn drop(self) {
        let Self {
            overrides: _,
            scripts: _,
        } = self;
    }
}

impl Model for HeldRules {
    ghost use Rattle.std.specs.Prelude.{map};
    ghost use Rattle.nextest_config_resolution_profiles.specs.HeldRules.{Columns};

    ghost Value = { Columns };

    ghost view = { λ it. record {
      overrides = map (λ column. column.items) it.overrides.items;
      scripts = map (λ column. column.items) it.scripts.items;
    } };
}

impl HeldRules {
    /// Which rules hold on the test at a place among those that were asked: the overrides in their
    /// order, and then the script rules in theirs. It takes the place of what `row` had. It fails
    /// only on allocation.
    pub fn row(&self, place: usize, row: &mut Vec<bool>) -> Result<(), AllocError>
        ensures { OnOk result (row.new.items ≡ held_row place self.now) }
    {
        row.clear();
        push_row(&self.overrides, place, row)?;
        push_row(&self.scripts, place, row)
    }

    /// The number of the row of each of the first tests, as many as `count`. Rows of at most 64
    /// rules are one where their numbers are; of more rules, other rows may have the same number.
    ///
    /// # Errors
    ///
    /// It fails only on allocation.
    pub fn numbers(&self, alloc: Global, count: usize) -> Result<Vec<u64>, AllocError>
        ensures { IfOk result
            (λ it. AreNumbers (λ place. held_row place self.now) count it.items) }
    {
        let mut numbers = vec![in alloc; 0u64; count]?;
        let so_far = numbers.as_mut_slice();
        let weight = add_columns(self.overrides.as_slice(), 1, so_far);
        add_columns(self.scripts.as_slice(), weight, so_far);
        Ok(numbers)
    }

    /// How many rules there are, each of which has a value in a row.
    pub fn count(&self) -> usize
        ensures { result ≡ rule_count self.now }
    {
        self.overrides.len() + self.scripts.len()
    }

    // The columns of the script rules.
    pub(crate) fn scripts(&self) -> &[Vec<bool>]
        ensures { map (λ column. column.items) result.now ≡ self.now.scripts }
    {
        self.scripts.as_slice()
    }
}

// Adds what columns say of the test at a place.
fn push_row(columns: &Vec<Vec<bool>>, place: usize, row: &mut Vec<bool>) -> Result<(), AllocError>
    ensures { OnOk result (row.new.items
        ≡ row.old.items ++ row_at place (map (λ column. column.items) columns.now.items)) }
{
    for column in columns {
        row.push(value_at(column.as_slice(), place))?;
    }
    Ok(())
}

// Adds to numbers what columns say, of which the first has this weight, and answers the weight of
// the column behind them. An empty column takes no time.
fn add_columns(columns: &[Vec<bool>], weight: u64, numbers: &mut [u64]) -> u64
    ensures { (before : List (List Bool)) (count : ℕ)
        → AreCarried before count weight numbers.old
        → AreCarried (before ++ map (λ column. column.items) columns.now) count result numbers.new }
{
    let mut next = weight;
    for column in columns {
        add_column(column.as_slice(), next, numbers);
        next = next_weight(next);
    }
    next
}

// Adds the weight of a column to the number at each place where it is true. It goes by index, since
// a proof knows nothing of what a `zip` of `iter_mut` wrote.
fn add_column(column: &[bool], weight: u64, numbers: &mut [u64])
    ensures count { length numbers.new ≡ length numbers.old }
    ensures numbers { (place : ℕ) → place < length numbers.old → slice_index numbers.new place
        ≡ number_with weight (value_at place column.now) (slice_index numbers.old place) }
{
    for place in 0..column.len().min(numbers.len()) {
        numbers[place] = number_with(weight, column[place], numbers[place]);
    }
}

// A number with the weight of a rule, if that holds.
fn number_with(weight: u64, holds: bool, number: u64) -> u64
    ensures { result ≡ number_with weight holds number }
{
    if holds {
        number.wrapping_add(weight)
    } else {
        number
    }
}

// The weight behind one. Up to 64 rules each has a bit of its own.
fn next_weight(weight: u64) -> u64
    ensures { result ≡ next_weight weight }
{
    if weight < 1 << 63 { weight * 2 } else { 1 }
}

// The value at a place; past the end it is false.
pub(crate) fn value_at(values: &[bool], place: usize) -> bool
    ensures { result ≡ value_at place values.now }
{
    values.get(place).copied().unwrap_or(false)
}

// The column of each of some rules, beside a default filter: on which of some tests of a binary it
// holds.
fn columns_of<P, F: Filters, S>(
    alloc: Global,
    rules: &[ChainRule<'_, P, F, S>],
    default: &F,
    binary: &BinaryQuery<'_>,
    names: &[&str],
) -> Result<Vec<Vec<bool>>, AllocError>
    requires serves { F.serves_as_default default.now ≡ true }
    requires askable { All (IsAskable F.serves_as_default F.asks_groups) (rules_in rules.now) }
    ensures { IfOk result (λ it. AreColumns F.on_test default.now (binary_of binary.now)
        (lent_layers names.now) (seen_rules rules.now) (map (λ column. column.items) it.items)) }
{
    let mut columns = Vec::with_capacity(alloc, rules.len())?;
    for rule in rules {
        columns.push(column_of(alloc, rule, default, binary, names)?)?;
    }
    Ok(columns)
}

// The column of a rule. It is empty, and takes no memory, where the rule's platform or the binary
// alone tells that it holds on none of the tests.
fn column_of<P, F: Filters, S>(
    alloc: Global,
    rule: &ChainRule<'_, P, F, S>,
    default: &F,
    binary: &BinaryQuery<'_>,
    names: &[&str],
) -> Result<Vec<bool>, AllocError>
    requires serves { F.serves_as_default default.now ≡ true }
    requires askable { IsAskable F.serves_as_default F.asks_groups (rule_in rule.now) }
    ensures { IfOk result (λ it. IsColumn F.on_test default.now (binary_of binary.now)
        (lent_layers names.now) (seen_rule rule.now) it.items) }
{
    if !rule.holds_for(binary.platform) {
        return Ok(Vec::new(alloc));
    }
    match &rule.rule.compiled.filter {
        Some(filter) => filtered_column(alloc, filter, default, binary, names),
        None => vec![in alloc; true; names.len()],
    }
}

// On which of some tests of a binary a filter holds, beside a default filter.
fn filtered_column<F: Filters>(
    alloc: Global,
    filter: &F,
    default: &F,
    binary: &BinaryQuery<'_>,
    names: &[&str],
) -> Result<Vec<bool>, AllocError>
    requires serves { F.serves_as_default default.now ≡ true }
    requires no_groups { F.asks_groups filter.now ≡ false }
    ensures { IfOk result (λ it. TellsEach (λ name. F.on_test filter.now default.now (record
        { binary = binary_of binary.now; name = name }) true) (lent_layers names.now) it.items) }
{
    if holds_nowhere(alloc, filter, default, binary)? {
        return Ok(Vec::new(alloc));
    }
    filter.matches_tests(alloc, binary, names, default)
}

// Whether a filter holds on none of the tests of a binary, where it asks nothing of tests. One that
// does is asked of each test: what its matchers take isn't made twice for it.
fn holds_nowhere<F: Filters>(
    alloc: Global,
    filter: &F,
    default: &F,
    binary: &BinaryQuery<'_>,
) -> Result<bool, AllocError>
    requires serves { F.serves_as_default default.now ≡ true }
    ensures plain { IfOk result (λ nowhere. nowhere ≡ true
        → F.has_runtime_leaves filter.now ≡ false) }
    ensures sure { IfOk result (λ nowhere. nowhere ≡ true
        → F.on_binary filter.now default.now (binary_of binary.now) (Some false)) }
{
    if filter.has_runtime_leaves() {
        return Ok(false);
    }
    let value = filter.matches_binary(alloc, binary, default)?;
    Ok(value == Some(false))
}

// What the rules say at which a row is true, in their order.
pub(crate) fn picked_by<'c, P, F, S>(
    alloc: Global,
    rules: &[ChainRule<'c, P, F, S>],
    row: &[bool],
) -> Result<Vec<&'c P>, AllocError>
    ensures { IfOk result (λ it. lent_layers it.items
        ≡ map placed_of (rules_at row.now (seen_rules rules.now))) }
{
    let mut held = Vec::new(alloc);
    for (place, rule) in rules.iter().enumerate() {
        push_if(&mut held, rule, value_at(row, place))?;
    }
    Ok(held)
}

// Adds what a rule says, if it is asked for.
fn push_if<'c, P, F, S>(
    held: &mut Vec<&'c P>,
    rule: &ChainRule<'c, P, F, S>,
    is_asked: bool,
) -> Result<(), AllocError>
    ensures { IfOk result (λ _. lent_layers held.new.items ≡ lent_layers held.old.items
        ++ (if is_asked then placed_of (seen_rule rule.now) ∷ [] else [])) }
{
    if is_asked {
        held.push(&rule.rule.placed)?;
    }
    Ok(())
}

// What is left of a row behind its first values.
fn row_behind(row: &[bool], count: usize) -> &[bool]
    ensures { result.now ≡ drop count row.now }
{
    &row[count.min(row.len())..]
}

impl<'c, F: Filters, S: Specs> EvaluatableProfile<'c, F, S> {
    /// Which rules hold on each of some tests of a binary, by their names: what the filter of a
    /// rule takes is made for the binary, and not for each test anew.
    ///
    /// # Errors
    ///
    /// It fails only on allocation.
    pub fn held_rules(
        &self,
        alloc: Global,
        binary: &BinaryQuery<'_>,
        names: &[&str],
    ) -> Result<HeldRules, AllocError>
        ensures { IfOk result
            (AreHeldColumns F.on_test self.now (binary_of binary.now) (lent_layers names.now)) }
    {
        let default = self.default_filter.filter;
        let overrides = columns_of(alloc, self.rules.as_slice(), default, binary, names)?;
        let scripts = columns_of(alloc, self.script_rules.as_slice(), default, binary, names)?;
        Ok(HeldRules { overrides, scripts })
    }

    /// The settings of each test on which just these rules hold, as a row of `HeldRules` says it:
    /// each is that of the nearest of them that sets it, else that of the nearest profile of the
    /// chain that does, else a fallback.
    ///
    /// # Errors
    ///
    /// It fails only on allocation.
    pub fn settings_by_rules(
        &self,
        alloc: Global,
        mode: NextestRunMode,
        row: &[bool],
    ) -> Result<TestSettings<'c>, AllocError>
        ensures { IfOk result (λ it. (test : Test) → IsHeldRow F.on_test self.now test row.now
            → AreSettingsFor F.on_test TellsNothing self.now mode test it) }
    {
        let overrides = self.picked_overrides(alloc, row)?;
        let scripts = self.picked_scripts(alloc, row)?;
        Ok(self.settings_of::<()>(mode, overrides.as_slice(), scripts.as_slice()))
    }

    // What the overrides say at which a row is true, in their order.
    fn picked_overrides(
        &self,
        alloc: Global,
        row: &[bool],
    ) -> Result<Vec<&'c PlacedOverride>, AllocError>
        ensures { IfOk result
            (λ it. lent_layers it.items ≡ map placed_of (rules_at row.now self.now.rules)) }
    {
        picked_by(alloc, self.rules.as_slice(), row)
    }

    // What the script rules say at which it is true, behind the overrides.
    fn picked_scripts(
        &self,
        alloc: Global,
        row: &[bool],
    ) -> Result<Vec<&'c PlacedScriptRule>, AllocError>
        ensures { IfOk result (λ it. lent_layers it.items ≡ map placed_of
            (rules_at (drop (length self.now.rules) row.now) self.now.script_rules)) }
    {
        let behind = row_behind(row, self.rules.len());
        picked_by(alloc, self.script_rules.as_slice(), behind)
    }
}

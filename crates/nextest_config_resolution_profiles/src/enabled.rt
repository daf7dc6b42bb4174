// The setup scripts that tests need, and the wrapper script of what lists them.
ghost use Rattle.std.specs.Bool.{OnFalse, OnTrue};
ghost use Rattle.std.specs.Prelude.{◌≡◌, ◌≢◌, [], ◌∷◌, ◌++◌, ◌||◌, ℕ, List, IsTrue, true, false, All, IfOk, OnOk, filter_map, length, map, take};
ghost use Rattle.std.specs.List.{list_any};
ghost use Rattle.std.specs.Option.{option_copied};
ghost use Rattle.std.specs.Slice.Iter.{iter_rest};
ghost use Rattle.std.specs.Str.{bytes_eq};
ghost use Rattle.nextest_config_resolution_profiles.specs.Asking.{IsAskable};
ghost use Rattle.nextest_config_resolution_profiles.specs.ChainRules.{rule_in, rules_in, seen_rule, seen_rules};
ghost use Rattle.nextest_config_resolution_profiles.specs.Enabled as words;
ghost use Rattle.nextest_config_resolution_profiles.specs.HeldRules.{AreHeldColumns, IsRowBy};
ghost use Rattle.nextest_config_resolution_settings.specs.Nearest.{lent_layers};
ghost use Rattle.nextest_filtering_filters.specs.Meaning.{Tells};
ghost use Rattle.nextest_filtering_filters.specs.Query.{Binary, Test, binary_of, test_of};

use crate::chain_rule::ChainRule;
use crate::evaluatable_profile::EvaluatableProfile;
use crate::held::holds_on;
use crate::held_rules::{HeldRules, picked_by};
use nextest_config_resolution_filters::{Filters, Specs};
use nextest_config_resolution_scripts::{
    NamedScript, PlacedScriptRule, ScriptId, SetupScriptConfig, script_named,
};
use nextest_config_resolution_settings::{ListSettings, list_settings_by};
use nextest_filtering_filters::{BinaryQuery, TestQuery};
use nextest_text::{Listing, Text};
use std::alloc::{AllocError, Global};
use std::collections::BTreeSet;
use std::marker::Model;
use std::slice;

/// A setup script that is enabled.
pub struct EnabledScript<'c> {
    /// Its name.
    pub id: ScriptId,
    /// What it is set to.
    pub config: &'c SetupScriptConfig,
}

impl<'c> Clone for EnabledScript<'c> {
    ghost use Rattle.std.specs.Prelude.{◌≡◌};

    ghost is_clone = { λ original copy. copy ≡ original };

    fn clone(&self) -> Result<EnabledScript<'c>, AllocError> {
        Ok(EnabledScript {
            id: self.id.clone()?,
            config: self.config,
        })
    }
}

// One call drops it, whoever holds it.
impl<'c> Drop for EnabledScript<'c> {
    fn drop(self) {
        let Self { id: _, config: _ } = self;
    }
}

/// The setup scripts that are enabled for some tests, by the bytes of their names. In a clause it
/// is the list of their names, each with what the script is set to.
pub struct SetupScripts<'c> {
    scripts: Vec<EnabledScript<'c>>,
}

// One call drops it, whoever holds it.
impl<'c> Drop for SetupScripts<'c> {
    fn drop(self) {
        let Self { scripts: _ } = self;
    }
}

impl<'c> Model for SetupScripts<'c> {
    ghost use Rattle.std.specs.Prelude.{ℕ, List, map};
    ghost use Rattle.nextest_config_resolution_profiles.specs.Enabled.{seen_script};
    ghost use Rattle.nextest_config_resolution_scripts.specs.declared.setup_script.SetupScriptConfig.{SetupScriptConfig};

    ghost Value = { List (List ℕ × SetupScriptConfig) };

    ghost view = { λ it. map seen_script it.scripts.items };
}

impl<'c> Clone for SetupScripts<'c> {
    ghost use Rattle.std.specs.Prelude.{◌≡◌};

    ghost is_clone = { λ original copy. copy ≡ original };

    fn clone(&self) -> Result<SetupScripts<'c>, AllocError> {
        Ok(SetupScripts {
            scripts: self.scripts.clone()?,
        })
    }
}

impl<'c> SetupScripts<'c> {
    /// How many there are.
    pub fn len(&self) -> usize
        ensures { result ≡ length self.now }
    {
        self.scripts.len()
    }

    /// Whether there are none.
    pub fn is_empty(&self) -> bool
        ensures yes { OnTrue result (self.now ≡ []) }
        ensures no { OnFalse result (self.now ≢ []) }
    {
        self.scripts.is_empty()
    }

    /// Them, lent, in the order in which they run.
    pub fn as_slice(&self) -> &[EnabledScript<'c>]
        ensures { map words.seen_script result.now ≡ self.now }
    {
        self.scripts.as_slice()
    }

    /// Them, one after another, in the order in which they run.
    pub fn iter(&self) -> slice::Iter<'_, EnabledScript<'c>>
        ensures { map words.seen_script (iter_rest result) ≡ self.now }
    {
        self.scripts.iter()
    }
}

/// The names of setup scripts that are enabled for some tests, as they are found, binary by binary.
/// In a clause it is the set of them.
pub struct EnabledNames {
    names: BTreeSet<ScriptId>,
}

// One call drops it, whoever holds it.
impl Drop for EnabledNames {
    fn drop(self) {
        let Self { names: _ } = self;
    }
}

impl Model for EnabledNames {
    ghost use Rattle.std.specs.Prelude.{ℕ, List};
    ghost use Rattle.std.specs.BTreeSet.{BTreeSet};

    ghost Value = { BTreeSet (List ℕ) };

    ghost view = { λ it. it.names };
}

impl EnabledNames {
    /// No names.
    pub fn new(alloc: Global) -> EnabledNames
        ensures { (id : List ℕ) → words.has_name result id ≡ false }
    {
        EnabledNames {
            names: BTreeSet::new(alloc),
        }
    }

    /// The names, each once, by their bytes. It fails only on allocation.
    pub fn listed(&self, alloc: Global) -> Result<Listing<Text>, AllocError>
        ensures { IfOk result (words.AreNamesOf (λ id. IsTrue (words.has_name self.now id))) }
    {
        let mut listed = Listing::new(alloc);
        for name in &self.names {
            listed.push(Text::from_str(alloc, name.as_str())?)?;
        }
        Ok(listed)
    }

    // Adds the names of the setup scripts that these rules name.
    fn add_all(&mut self, rules: &[&PlacedScriptRule]) -> Result<(), AllocError>
        ensures { OnOk result ((id : List ℕ) → words.has_name self.new id
            ≡ words.has_name self.old id || words.is_named (lent_layers rules.now) id) }
    {
        for rule in rules {
            add_setup(&mut self.names, rule.config.setup.as_slice())?;
        }
        Ok(())
    }

    // These scripts, each with what it is set to, where it is defined.
    fn defined<'c>(
        &self,
        alloc: Global,
        scripts: &'c [NamedScript<SetupScriptConfig>],
    ) -> Result<SetupScripts<'c>, AllocError>
        ensures { IfOk result
            (words.AreScriptsOf (λ id. IsTrue (words.has_name self.now id)) scripts.now) }
    {
        let mut found = Vec::new(alloc);
        for id in &self.names {
            push_defined(&mut found, id, scripts)?;
        }
        Ok(SetupScripts { scripts: found })
    }
}

// Adds names to others.
fn add_setup(names: &mut BTreeSet<ScriptId>, ids: &[ScriptId]) -> Result<(), AllocError>
    ensures { OnOk result ((id : List ℕ) → words.has_name names.new id
        ≡ words.has_name names.old id || list_any (bytes_eq id) ids.now) }
{
    for id in ids {
        names.insert(id.clone()?)?;
    }
    Ok(())
}

// Adds the script of a name, where one is defined.
fn push_defined<'c>(
    found: &mut Vec<EnabledScript<'c>>,
    id: &ScriptId,
    scripts: &'c [NamedScript<SetupScriptConfig>],
) -> Result<(), AllocError>
    ensures { OnOk result (map words.seen_script found.new.items ≡ map words.seen_script
        found.old.items ++ filter_map (words.defined_as scripts.now) (id.now ∷ [])) }
{
    if let Some(config) = script_named(scripts, id) {
        found.push(EnabledScript {
            id: id.clone()?,
            config,
        })?;
    }
    Ok(())
}

// What script rules are asked: whether they hold on some of these tests, or on this binary.
#[derive(Clone, Copy)]
pub(crate) enum Asked<'q> {
    Tests(&'q [TestQuery<'q>]),
    Binary(&'q BinaryQuery<'q>),
}

// Of which of some rules that holds, beside a default filter.
fn asked_of<P, F: Filters, S>(
    alloc: Global,
    rules: &[ChainRule<'_, P, F, S>],
    default: &F,
    asked: Asked<'_>,
) -> Result<Vec<bool>, AllocError>
    requires serves { F.serves_as_default default.now ≡ true }
    requires askable { All (IsAskable F.serves_as_default F.asks_groups) (rules_in rules.now) }
    ensures { IfOk result (λ row. IsRowBy (words.HoldsAsked F.on_test F.on_binary default.now
        asked.entry) (seen_rules rules.now) row.items) }
{
    let mut row = Vec::with_capacity(alloc, rules.len())?;
    for rule in rules {
        row.push(holds_asked(alloc, rule, default, asked)?)?;
    }
    Ok(row)
}

// Whether that holds of a rule.
fn holds_asked<P, F: Filters, S>(
    alloc: Global,
    rule: &ChainRule<'_, P, F, S>,
    default: &F,
    asked: Asked<'_>,
) -> Result<bool, AllocError>
    requires serves { F.serves_as_default default.now ≡ true }
    requires askable { IsAskable F.serves_as_default F.asks_groups (rule_in rule.now) }
    ensures { IfOk result (Tells
        (words.HoldsAsked F.on_test F.on_binary default.now asked.entry (seen_rule rule.now))) }
{
    match asked {
        Asked::Tests(tests) => holds_on_some(alloc, rule, default, tests),
        Asked::Binary(binary) => holds_on_binary(alloc, rule, default, binary),
    }
}

// Whether a rule holds on some of these tests.
fn holds_on_some<P, F: Filters, S>(
    alloc: Global,
    rule: &ChainRule<'_, P, F, S>,
    default: &F,
    tests: &[TestQuery<'_>],
) -> Result<bool, AllocError>
    requires serves { F.serves_as_default default.now ≡ true }
    requires askable { IsAskable F.serves_as_default F.asks_groups (rule_in rule.now) }
    ensures { IfOk result (Tells
        (words.HoldsOnSome F.on_test default.now (map test_of tests.now) (seen_rule rule.now))) }
{
    for test in tests {
        if holds_on(alloc, rule, default, test)? {
            return Ok(true);
        }
    }
    Ok(false)
}

// Whether a rule holds on a binary, whatever its tests are.
fn holds_on_binary<P, F: Filters, S>(
    alloc: Global,
    rule: &ChainRule<'_, P, F, S>,
    default: &F,
    binary: &BinaryQuery<'_>,
) -> Result<bool, AllocError>
    requires serves { F.serves_as_default default.now ≡ true }
    ensures { IfOk result (Tells
        (words.HoldsOnBinary F.on_binary default.now (binary_of binary.now) (seen_rule rule.now))) }
{
    if !rule.holds_for(binary.platform) {
        return Ok(false);
    }
    match &rule.rule.compiled.filter {
        Some(filter) => {
            let value = filter.matches_binary(alloc, binary, default)?;
            Ok(value == Some(true))
        }
        None => Ok(true),
    }
}

// Of each column, whether one of its first values is true.
fn any_of_each(alloc: Global, columns: &[Vec<bool>], count: usize) -> Result<Vec<bool>, AllocError>
    ensures { IfOk result
        (λ row. row.items ≡ map (λ column. words.any_in count column.items) columns.now) }
{
    let mut row = Vec::with_capacity(alloc, columns.len())?;
    for column in columns {
        row.push(any_of(column.as_slice(), count))?;
    }
    Ok(row)
}

// Whether one of the first values is true.
fn any_of(values: &[bool], count: usize) -> bool
    ensures { result ≡ words.any_in count values.now }
{
    has_one(front_of(values, count))
}

// The first values.
fn front_of(values: &[bool], count: usize) -> &[bool]
    ensures { result.now ≡ take count values.now }
{
    &values[..count.min(values.len())]
}

// Whether one of some values is true.
fn has_one(values: &[bool]) -> bool
    ensures { result ≡ list_any (λ value. value) values.now }
{
    values.iter().any(is_true)
}

// Whether this one is.
fn is_true(value: &bool) -> bool
    ensures { result ≡ value.now }
{
    *value
}

impl<'c, F: Filters, S: Specs> EvaluatableProfile<'c, F, S> {
    /// The setup scripts that are enabled for these tests: those that script rules name which hold
    /// on some of them, by the bytes of their names.
    ///
    /// # Errors
    ///
    /// It fails only on allocation.
    pub fn setup_scripts(
        &self,
        alloc: Global,
        matching: &[TestQuery<'_>],
    ) -> Result<SetupScripts<'c>, AllocError>
        ensures { IfOk result (words.AreEnabled F.on_test self.now (map test_of matching.now)) }
    {
        let picked = self.script_rules_on(alloc, Asked::Tests(matching))?;
        let mut names = EnabledNames::new(alloc);
        names.add_all(picked.as_slice())?;
        names.defined(alloc, self.scripts.setup.as_slice())
    }

    /// Adds the names of the setup scripts that are enabled for the first `count` tests of a binary
    /// that `held` tells of.
    ///
    /// # Errors
    ///
    /// It fails only on allocation; then some of the names may have been added.
    pub fn add_scripts(
        &self,
        alloc: Global,
        held: &HeldRules,
        count: usize,
        names: &mut EnabledNames,
    ) -> Result<(), AllocError>
        ensures { (binary : Binary) (them : List (List ℕ)) (tests : List Test)
            → AreHeldColumns F.on_test self.now binary them held.now → count ≡ length them
            → words.HasEnabled F.on_test self.now tests names.old
            → OnOk result (words.HasEnabled F.on_test self.now
            (tests ++ map (words.test_in binary) them) names.new) }
    {
        let row = any_of_each(alloc, held.scripts(), count)?;
        let picked = picked_by(alloc, self.script_rules.as_slice(), row.as_slice())?;
        names.add_all(picked.as_slice())
    }

    /// The settings with which the tests of a binary are listed: the wrapper script is the one that
    /// the nearest script rule names which names one and holds on the binary, whatever its tests
    /// are.
    ///
    /// # Errors
    ///
    /// It fails only on allocation.
    pub fn list_settings_for(
        &self,
        alloc: Global,
        query: &BinaryQuery<'_>,
    ) -> Result<ListSettings<'c>, AllocError>
        ensures { IfOk result (λ it. words.IsListWrapper F.on_binary self.now (binary_of query.now)
            (option_copied it.list_wrapper.0)) }
    {
        let rules = self.script_rules_on(alloc, Asked::Binary(query))?;
        Ok(list_settings_by(rules.as_slice(), self.scripts.wrapper.as_slice()))
    }

    // The script rules that hold on what is asked, in their order.
    fn script_rules_on(
        &self,
        alloc: Global,
        asked: Asked<'_>,
    ) -> Result<Vec<&'c PlacedScriptRule>, AllocError>
        ensures { IfOk result (λ it.
            words.FindsAsked F.on_test F.on_binary self.now asked.entry (lent_layers it.items)) }
    {
        let rules = self.script_rules.as_slice();
        let row = asked_of(alloc, rules, self.default_filter.filter, asked)?;
        picked_by(alloc, rules, row.as_slice())
    }
}

// Which rules hold on a test.
ghost use Rattle.std.specs.Prelude.{◌≡◌, true, All, IfOk};
ghost use Rattle.nextest_config_resolution_profiles.specs.Asking.{IsAskable};
ghost use Rattle.nextest_config_resolution_profiles.specs.ChainRules.{rule_in, rules_in, seen_rule, seen_rules};
ghost use Rattle.nextest_config_resolution_profiles.specs.Finding.{AddsHeld, FindsHeld, GivesGroup};
ghost use Rattle.nextest_config_resolution_profiles.specs.Held.{Holds, IsGroupBy};
ghost use Rattle.nextest_config_resolution_settings.specs.Nearest.{lent_layers};
ghost use Rattle.nextest_config_resolution_settings.specs.TestSettings.{group_of};
ghost use Rattle.nextest_filtering_filters.specs.Meaning.{Tells};
ghost use Rattle.nextest_filtering_filters.specs.Query.{test_of};

use crate::chain_rule::ChainRule;
use nextest_config_resolution_filters::Filters;
use nextest_config_resolution_keys::get_value;
use nextest_config_resolution_overrides::{PlacedOverride, TestGroupKey};
use nextest_config_resolution_settings::TestGroupRef;
use nextest_filtering_filters::TestQuery;
use std::alloc::{AllocError, Global};

// The rules of these that hold on a test, beside a default filter, in their order.
pub(crate) fn held_on<'c, P, F: Filters, S>(
    alloc: Global,
    rules: &[ChainRule<'c, P, F, S>],
    default: &F,
    query: &TestQuery<'_>,
) -> Result<Vec<&'c P>, AllocError>
    requires serves { F.serves_as_default default.now ≡ true }
    requires askable { All (IsAskable F.serves_as_default F.asks_groups) (rules_in rules.now) }
    ensures { IfOk result (λ it. FindsHeld (Holds F.on_test default.now (test_of query.now))
        (seen_rules rules.now) (lent_layers it.items)) }
{
    let mut held = Vec::new(alloc);
    for rule in rules {
        push_held(alloc, &mut held, rule, default, query)?;
    }
    Ok(held)
}

// Adds a rule, if it holds on a test.
fn push_held<'c, P, F: Filters, S>(
    alloc: Global,
    held: &mut Vec<&'c P>,
    rule: &ChainRule<'c, P, F, S>,
    default: &F,
    query: &TestQuery<'_>,
) -> Result<(), AllocError>
    requires serves { F.serves_as_default default.now ≡ true }
    requires askable { IsAskable F.serves_as_default F.asks_groups (rule_in rule.now) }
    ensures { IfOk result (λ _. AddsHeld (Holds F.on_test default.now (test_of query.now))
        (seen_rule rule.now) (lent_layers held.old.items) (lent_layers held.new.items)) }
{
    if holds_on(alloc, rule, default, query)? {
        held.push(&rule.rule.placed)?;
    }
    Ok(())
}

// The group of the first rule of these that holds on a test and sets one, lent, else the global
// one.
pub(crate) fn group_on<'c, F: Filters, S>(
    alloc: Global,
    rules: &[ChainRule<'c, PlacedOverride, F, S>],
    default: &F,
    query: &TestQuery<'_>,
) -> Result<TestGroupRef<'c>, AllocError>
    requires serves { F.serves_as_default default.now ≡ true }
    requires askable { All (IsAskable F.serves_as_default F.asks_groups) (rules_in rules.now) }
    ensures { IfOk result (λ it. IsGroupBy (Holds F.on_test default.now (test_of query.now))
        (seen_rules rules.now) (group_of it)) }
{
    for rule in rules {
        if let Some(group) = group_by(alloc, rule, default, query)? {
            return Ok(group);
        }
    }
    Ok(TestGroupRef::Global)
}

// The group that a rule sets, lent, if it holds on a test.
fn group_by<'c, F: Filters, S>(
    alloc: Global,
    rule: &ChainRule<'c, PlacedOverride, F, S>,
    default: &F,
    query: &TestQuery<'_>,
) -> Result<Option<TestGroupRef<'c>>, AllocError>
    requires serves { F.serves_as_default default.now ≡ true }
    requires askable { IsAskable F.serves_as_default F.asks_groups (rule_in rule.now) }
    ensures { IfOk result
        (GivesGroup (Holds F.on_test default.now (test_of query.now)) (seen_rule rule.now)) }
{
    match get_value::<TestGroupKey, _>(&rule.rule.placed.config) {
        Some(group) => {
            if holds_on(alloc, rule, default, query)? {
                return Ok(Some(TestGroupRef::new(group)));
            }
            Ok(None)
        }
        None => Ok(None),
    }
}

// Whether a rule holds on a test, beside a default filter.
pub(crate) fn holds_on<P, F: Filters, S>(
    alloc: Global,
    rule: &ChainRule<'_, P, F, S>,
    default: &F,
    query: &TestQuery<'_>,
) -> Result<bool, AllocError>
    requires serves { F.serves_as_default default.now ≡ true }
    requires askable { IsAskable F.serves_as_default F.asks_groups (rule_in rule.now) }
    ensures { IfOk result
        (Tells (Holds F.on_test default.now (test_of query.now) (seen_rule rule.now))) }
{
    if !rule.holds_for(query.binary_query.platform) {
        return Ok(false);
    }
    match &rule.rule.compiled.filter {
        Some(filter) => filter.matches_test(alloc, query, default),
        None => Ok(true),
    }
}

// The rules of the profiles of a chain.
ghost use Rattle.std.specs.Prelude.{◌≡◌, ◌++◌, ◌<◌, [], ◌∷◌, All, IfOk, filter, length, map};
ghost use Rattle.nextest_config_resolution_inheritance.specs.Inheritance.{names_at};
ghost use Rattle.nextest_config_resolution_load.specs.Checks.{parents_of};
ghost use Rattle.nextest_config_resolution_load.specs.Load.{named_of};
ghost use Rattle.nextest_config_resolution_profiles.specs.ChainRules.{rules_in};
ghost use Rattle.nextest_config_resolution_profiles.specs.Early.{in_profile};
ghost use Rattle.nextest_config_resolution_settings.specs.Rules.{is_of_profile, rules_of, rules_of_profile};

use crate::chain_rule::ChainRule;
use nextest_config_resolution_load::{LoadedRule, NamedProfile};
use nextest_config_resolution_settings::InProfile;
use std::alloc::{AllocError, Global};

// The rules of the profiles at some places, one profile after another, and those of a profile in
// the order of all rules.
pub(crate) fn rules_at<'c, P: InProfile + Drop, F: Drop, S: Drop>(
    alloc: Global,
    profiles: &[NamedProfile],
    places: &[usize],
    all: &'c [LoadedRule<P, F, S>],
) -> Result<Vec<ChainRule<'c, P, F, S>>, AllocError>
    requires { All (λ place. place < length profiles.now) places.now }
    ensures { IfOk result (λ it. rules_in it.items ≡ rules_of (in_profile P.profile_of) all.now
        (names_at (parents_of (map named_of profiles.now)) places.now)) }
{
    let mut rules = Vec::new(alloc);
    for place in places {
        push_profile(&mut rules, profiles[*place].name.as_str(), all)?;
    }
    Ok(rules)
}

// Adds the rules of the profile of a name.
fn push_profile<'c, P: InProfile + Drop, F: Drop, S: Drop>(
    rules: &mut Vec<ChainRule<'c, P, F, S>>,
    name: &str,
    all: &'c [LoadedRule<P, F, S>],
) -> Result<(), AllocError>
    ensures { IfOk result (λ _. rules_in rules.new.items
        ≡ rules_in rules.old.items ++ rules_of_profile (in_profile P.profile_of) all.now name.now) }
{
    for rule in all {
        push_rule(rules, name, rule)?;
    }
    Ok(())
}

// Adds a rule, if it is of the profile of a name.
fn push_rule<'c, P: InProfile + Drop, F: Drop, S: Drop>(
    rules: &mut Vec<ChainRule<'c, P, F, S>>,
    name: &str,
    rule: &'c LoadedRule<P, F, S>,
) -> Result<(), AllocError>
    ensures { IfOk result (λ _. rules_in rules.new.items ≡ rules_in rules.old.items
        ++ filter (is_of_profile (in_profile P.profile_of) name.now) (rule.now ∷ [])) }
{
    if rule.placed.profile() == name {
        rules.push(ChainRule::new(rule))?;
    }
    Ok(())
}

// The platforms of a build, and what holds on them.
ghost use Rattle.std.specs.Prelude.{◌≡◌, IfNone, IfSome, OnSome, map};
ghost use Rattle.nextest_config_resolution_profiles.specs.ChainRules.{put_on, seen_rule, seen_rules};
ghost use Rattle.nextest_config_resolution_profiles.specs.Platforms as words;
ghost use Rattle.nextest_config_resolution_settings.specs.Rules.{HoldsAndSets, NoneHoldsAndSets};

use crate::chain_rule::ChainRule;
use nextest_config_resolution_filters::Specs;
use nextest_config_resolution_overrides::PlacedOverride;
use nextest_config_resolution_settings::{CompiledDefaultFilter, CompiledDefaultFilterSection};

/// What is known of the platform that is built on, and of the one that is built for where it is
/// another.
#[derive(Clone, Copy)]
pub struct BuildPlatforms<'f, Facts> {
    /// What is known of the platform that is built on.
    pub host: &'f Facts,
    /// What is known of the platform that is built for; `None` where it is the same.
    pub target: Option<&'f Facts>,
}

impl<'f, Facts> BuildPlatforms<'f, Facts> {
    // What is known of the platform that is built for.
    pub(crate) fn target(&self) -> &'f Facts
        ensures { result.now ≡ words.built_for self.now }
    {
        match self.target {
            Some(target) => target,
            None => self.host,
        }
    }
}

// Whether a spec, if there is one, holds on a platform, as far as what is known tells.
pub(crate) fn spec_holds<S: Specs>(spec: &Option<S>, facts: &S::Facts) -> bool
    ensures { result ≡ words.spec_holds S.value_on spec.now facts.now }
{
    match spec {
        Some(spec) => spec.eval(facts).unwrap_or(true),
        None => true,
    }
}

// Looks on which of these platforms each of some rules holds.
pub(crate) fn put_all_on<P, F, S: Specs>(
    rules: &mut Vec<ChainRule<'_, P, F, S>>,
    platforms: &BuildPlatforms<'_, S::Facts>,
)
    ensures { rules.new.items ≡ map (put_on S.value_on (words.built_on platforms.now)
        (words.built_for platforms.now)) rules.old.items }
{
    put_each_on(rules.as_mut_slice(), platforms);
}

// The same of rules that are lent.
fn put_each_on<P, F, S: Specs>(
    rules: &mut [ChainRule<'_, P, F, S>],
    platforms: &BuildPlatforms<'_, S::Facts>,
)
    ensures { rules.new ≡ map (put_on S.value_on (words.built_on platforms.now)
        (words.built_for platforms.now)) rules.old }
{
    for rule in rules.iter_mut() {
        rule.put_on(platforms);
    }
}

// The default filter on platforms, by rules that were put on them, where this is the one of the
// profiles.
pub(crate) fn chosen_default<'c, F: Drop, S>(
    early: CompiledDefaultFilter<'c, F>,
    rules: &[ChainRule<'c, PlacedOverride, F, S>],
) -> CompiledDefaultFilter<'c, F>
    ensures { words.IsChosenDefault early.entry (seen_rules rules.now) result }
{
    match default_of_rules(rules) {
        Some(found) => found,
        None => early,
    }
}

// The default filter that is set by the first rule that holds for the target and sets one.
fn default_of_rules<'c, F, S>(
    rules: &[ChainRule<'c, PlacedOverride, F, S>],
) -> Option<CompiledDefaultFilter<'c, F>>
    ensures found { IfSome result (words.IsDefaultOfRules (seen_rules rules.now)) }
    ensures none { IfNone result
        (NoneHoldsAndSets words.ForTarget words.default_set (seen_rules rules.now)) }
{
    for rule in rules {
        if let Some(found) = default_of_rule(rule) {
            return Some(found);
        }
    }
    None
}

// The default filter that a rule sets, if it holds for the target.
fn default_of_rule<'c, F, S>(
    rule: &ChainRule<'c, PlacedOverride, F, S>,
) -> Option<CompiledDefaultFilter<'c, F>>
    ensures holds { OnSome result (words.ForTarget (seen_rule rule.now)) }
    ensures found { IfSome result (words.IsDefaultOf (seen_rule rule.now)) }
    ensures none { IfNone result
        (¬ HoldsAndSets words.ForTarget words.default_set (seen_rule rule.now)) }
{
    if !rule.for_target {
        return None;
    }
    match &rule.rule.compiled.default_filter {
        Some(filter) => Some(CompiledDefaultFilter {
            filter,
            profile: rule.rule.placed.id.profile.as_str(),
            section: CompiledDefaultFilterSection::Override,
        }),
        None => None,
    }
}

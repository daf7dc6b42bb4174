// A profile before anything is known of the platforms.
ghost use Rattle.std.specs.Prelude.{◌≡◌, IfOk, map};
ghost use Rattle.std.specs.Bool.{OnFalse, OnTrue};
ghost use Rattle.nextest_config_resolution_profiles.specs.Config.{SetsJunit};
ghost use Rattle.nextest_config_resolution_profiles.specs.Evaluatable.{IsPutOn};
ghost use Rattle.nextest_config_resolution_profiles.specs.Platforms.{built_for, built_on};
ghost use Rattle.nextest_config_resolution_settings.specs.Layers.{in_own};
ghost use Rattle.nextest_config_resolution_settings.specs.Nearest.{SetsNone};
ghost use Rattle.nextest_config_resolution_keys.specs.Own as own_key;

use crate::chain_rule::ChainRule;
use crate::evaluatable_profile::EvaluatableProfile;
use crate::platforms::{BuildPlatforms, chosen_default, put_all_on};
use nextest_config_resolution_filters::{Filters, Specs};
use nextest_config_resolution_keys::{JunitPathKey, ProfileConfig};
use nextest_config_resolution_overrides::{NamedGroup, PlacedOverride};
use nextest_config_resolution_scripts::{PlacedScriptRule, ScriptConfig};
use nextest_config_resolution_settings::{CompiledDefaultFilter, nearest};
use nextest_filtering_filters::KnownGroups;
use nextest_text::{Listing, Text};
use std::alloc::{AllocError, Global};
use std::marker::Model;

/// A profile before anything is known of the platforms: its chain and the rules of that, and where
/// its files stand.
pub struct EarlyProfile<'c, F: Filters, S: Specs> {
    pub(crate) name: &'c str,
    pub(crate) store_dir: Text,
    // Its own values first, then those of its parents one after another, and those of `default`
    // last.
    pub(crate) chain: Vec<&'c ProfileConfig>,
    // That of the profiles alone.
    pub(crate) default_filter: CompiledDefaultFilter<'c, F>,
    // By the chain, then by file from the highest, then by their index in the file.
    pub(crate) rules: Vec<ChainRule<'c, PlacedOverride, F, S>>,
    pub(crate) script_rules: Vec<ChainRule<'c, PlacedScriptRule, F, S>>,
    pub(crate) groups: &'c [NamedGroup],
    pub(crate) scripts: &'c ScriptConfig,
}

// One call drops it, whoever holds it.
impl<'c, F: Filters, S: Specs> Drop for EarlyProfile<'c, F, S> {
    fn drop(self) {
        let Self {
            name: _,
            store_dir: _,
            chain: _,
            default_filter: _,
            rules: _,
            script_rules: _,
            groups: _,
            scripts: _,
        } = self;
    }
}

impl<'c, F: Filters, S: Specs> Model for EarlyProfile<'c, F, S> {
    ghost use Rattle.nextest_config_resolution_profiles.specs.Asking.{AreAskable};
    ghost use Rattle.nextest_config_resolution_profiles.specs.ChainRules.{rules_in};
    ghost use Rattle.nextest_config_resolution_profiles.specs.Early.{Early};
    ghost use Rattle.nextest_config_resolution_settings.specs.Nearest.{lent_layers};

    ghost Value = { Early F S };

    ghost view = { λ it. record {
      name = it.name.now;
      store_dir = it.store_dir;
      chain = lent_layers it.chain.items;
      default_filter = it.default_filter;
      rules = rules_in it.rules.items;
      script_rules = rules_in it.script_rules.items;
      groups = it.groups.now;
      scripts = it.scripts.now;
    } };

    // The default filter and those of rules serve as such, and no rule asks for groups.
    ghost invariant = { λ it.
        AreAskable F.serves_as_default F.asks_groups it.default_filter.filter.now
        (rules_in it.rules.items) (rules_in it.script_rules.items) };
}

impl<'c, F: Filters, S: Specs> Clone for EarlyProfile<'c, F, S> {
    ghost use Rattle.std.specs.Prelude.{◌≡◌};

    ghost is_clone = { λ original copy. copy ≡ original };

    fn clone(&self) -> Result<EarlyProfile<'c, F, S>, AllocError> {
        let store_dir = self.store_dir.clone()?;
        let chain = self.chain.clone()?;
        let default_filter = self.default_filter.clone()?;
        let rules = self.rules.clone()?;
        let script_rules = self.script_rules.clone()?;
        Ok(EarlyProfile {
            name: self.name,
            store_dir,
            chain,
            default_filter,
            rules,
            script_rules,
            groups: self.groups,
            scripts: self.scripts,
        })
    }
}

impl<'c, F: Filters, S: Specs> EarlyProfile<'c, F, S> {
    /// Its name.
    pub fn name(&self) -> &'c str
        ensures { result.now ≡ self.now.name }
    {
        self.name
    }

    /// The directory of its files: DIR/PROFILE where the store's directory begins at the root, or
    /// there is no workspace; and ROOT/DIR/PROFILE else.
    pub fn store_dir(&self) -> &str
        ensures { result.now ≡ self.now.store_dir }
    {
        self.store_dir.as_str()
    }

    /// Whether there is a report in JUnit's form: exactly if a profile of the chain sets
    /// `junit.path`.
    pub fn has_junit(&self) -> bool
        ensures yes { OnTrue result (SetsJunit self.now.chain) }
        ensures no { OnFalse result (SetsNone (in_own own_key.junit_path_of) self.now.chain) }
    {
        match nearest::<JunitPathKey, ProfileConfig>(self.chain.as_slice()) {
            Some(_) => true,
            None => false,
        }
    }

    /// The groups of tests that a filterset may name: those that are defined.
    ///
    /// # Errors
    ///
    /// It fails only on allocation.
    pub fn known_groups(&self, alloc: Global) -> Result<KnownGroups, AllocError>
        ensures { IfOk result
            (λ it. it ≡ KnownGroups.Known (map (λ group. group.name) self.now.groups)) }
    {
        Ok(KnownGroups::Known(group_names(alloc, self.groups)?))
    }

    /// The groups of tests, as they are defined. Of several with one name the last holds.
    pub fn test_group_config(&self) -> &'c [NamedGroup]
        ensures { result.now ≡ self.now.groups }
    {
        self.groups
    }

    /// The profile on these platforms, with the same name and chain, to be asked for its settings.
    /// A spec of which what is known doesn't tell whether it holds does. The default filter is that
    /// of the first rule that holds for what is built for the target and sets one; where there is
    /// none, it is that of the profiles.
    pub fn apply_build_platforms(
        self,
        platforms: &BuildPlatforms<'_, S::Facts>,
    ) -> EvaluatableProfile<'c, F, S>
        ensures { IsPutOn S.value_on (built_on platforms.now)
            (built_for platforms.now) self.entry result }
    {
        let EarlyProfile {
            name,
            store_dir,
            chain,
            default_filter: early,
            mut rules,
            mut script_rules,
            groups,
            scripts,
        } = self;
        put_all_on(&mut rules, platforms);
        put_all_on(&mut script_rules, platforms);
        let default_filter = chosen_default(early, rules.as_slice());
        EvaluatableProfile {
            name,
            store_dir,
            chain,
            default_filter,
            rules,
            script_rules,
            groups,
            scripts,
        }
    }
}

// The names of groups.
fn group_names(alloc: Global, groups: &[NamedGroup]) -> Result<Listing<Text>, AllocError>
    ensures { IfOk result (λ it. it ≡ map (λ group. group.name) groups.now) }
{
    let mut names = Listing::new(alloc);
    for group in groups {
        names.push(Text::from_str(alloc, group.name.as_str())?)?;
    }
    Ok(names)
}

// Profiles by their names, and their chains.
ghost use Rattle.std.specs.Prelude.{◌≡◌, ◌≢◌, ◌<◌, All, Contains, IfNone, IfOk, IfSome, length, map};
ghost use Rattle.std.specs.Bool.{OnFalse, OnTrue};
ghost use Rattle.nextest_config_resolution_inheritance.specs.Inheritance.{IsAccepted, Rise, default, name_at, names, names_at};
ghost use Rattle.nextest_config_resolution_load.specs.Checks.{parents_of};
ghost use Rattle.nextest_config_resolution_load.specs.Load.{named_of};
ghost use Rattle.nextest_config_resolution_profiles.specs.Chains.{AreAt, IsChained};
ghost use Rattle.nextest_config_resolution_profiles.specs.Config.{IsDefaultFilterOf};
ghost use Rattle.nextest_config_resolution_profiles.specs.Whole.{AreFiltered};
ghost use Rattle.nextest_config_resolution_profiles.specs.Values.{SetsFilter};
ghost use Rattle.nextest_config_resolution_settings.specs.Layers.{in_command};
ghost use Rattle.nextest_config_resolution_settings.specs.Nearest.{SetsNone, lent_layers};
ghost use Rattle.nextest_config_resolution_keys.specs.Command as command_key;

use crate::chain_rule::ChainRule;
use crate::rules::rules_at;
use nextest_config_resolution_inheritance::chain_of;
use nextest_config_resolution_keys::{DefaultFilterKey, ProfileConfig};
use nextest_config_resolution_load::{LoadedOverride, LoadedScriptRule, NamedProfile};
use nextest_config_resolution_overrides::PlacedOverride;
use nextest_config_resolution_scripts::PlacedScriptRule;
use nextest_config_resolution_settings::{
    CompiledDefaultFilter, CompiledDefaultFilterSection, nearest,
};
use nextest_text::{Listing, Text};
use std::alloc::{AllocError, Global};

// The place of the profile of a name.
pub(crate) fn place_of(profiles: &[NamedProfile], name: &str) -> Option<usize>
    ensures within { IfSome result (λ place. place < length profiles.now) }
    ensures found { IfSome result
        (λ place. name_at (parents_of (map named_of profiles.now)) place ≡ name.now) }
    ensures missing { IfNone result
        (¬ Contains (map (λ profile. profile.name) profiles.now) name.now) }
{
    for place in 0..profiles.len() {
        if is_named(&profiles[place], name) {
            return Some(place);
        }
    }
    None
}

// Whether a profile has a name.
fn is_named(profile: &NamedProfile, name: &str) -> bool
    ensures yes { OnTrue result (profile.now.name ≡ name.now) }
    ensures no { OnFalse result (profile.now.name ≢ name.now) }
{
    profile.name.as_str() == name
}

// The names of all profiles, in their order.
pub(crate) fn all_names(
    alloc: Global,
    profiles: &[NamedProfile],
) -> Result<Listing<Text>, AllocError>
    ensures { IfOk result (λ it. it ≡ map (λ profile. profile.name) profiles.now) }
{
    let mut all = Listing::new(alloc);
    for profile in profiles {
        all.push(Text::from_str(alloc, profile.name.as_str())?)?;
    }
    Ok(all)
}

// The values of the chain of a profile, its own first, its default filter, and its rules.
#[derive(Drop)]
pub(crate) struct Chained<'c, F, S> {
    pub(crate) values: Vec<&'c ProfileConfig>,
    pub(crate) default_filter: CompiledDefaultFilter<'c, F>,
    pub(crate) rules: Vec<ChainRule<'c, PlacedOverride, F, S>>,
    pub(crate) script_rules: Vec<ChainRule<'c, PlacedScriptRule, F, S>>,
}

// The chain of the profile at a place, where these are the default filters of all profiles, and
// these the rules of all, overrides and script rules.
pub(crate) fn chain_at<'c, F: Drop, S: Drop>(
    alloc: Global,
    profiles: &'c [NamedProfile],
    filters: &'c [Option<F>],
    all: &'c [LoadedOverride<F, S>],
    scripts: &'c [LoadedScriptRule<F, S>],
    place: usize,
) -> Result<Chained<'c, F, S>, AllocError>
    requires accepted { IsAccepted (parents_of (map named_of profiles.now)) }
    requires rise { Rise (parents_of (map named_of profiles.now)) }
    requires has_default { Contains (names (parents_of (map named_of profiles.now))) default }
    requires sets_filter { SetsFilter (map named_of profiles.now) }
    requires filtered { AreFiltered profiles.now filters.now }
    requires place { place < length profiles.now }
    ensures { IfOk result (IsChained profiles.now filters.now all.now scripts.now
        (name_at (parents_of (map named_of profiles.now)) place)) }
{
    let found = chain_of(alloc, profiles, place)?;
    let places = found.as_slice();
    let values = values_at(alloc, profiles, places)?;
    let rules = rules_at(alloc, profiles, places, all)?;
    let script_rules = rules_at(alloc, profiles, places, scripts)?;
    let layers = values.as_slice();
    let default_filter = default_filter_of(profiles, filters, places, layers);
    Ok(Chained {
        values,
        default_filter,
        rules,
        script_rules,
    })
}

// The default filter of a chain in which one is set: that of the nearest profile that sets one.
fn default_filter_of<'c, F>(
    profiles: &'c [NamedProfile],
    filters: &'c [Option<F>],
    places: &[usize],
    values: &[&'c ProfileConfig],
) -> CompiledDefaultFilter<'c, F>
    requires within { All (λ place. place < length profiles.now) places.now }
    requires at { AreAt (map named_of profiles.now) places.now (lent_layers values.now) }
    requires filtered { AreFiltered profiles.now filters.now }
    requires set { ¬ SetsNone (in_command command_key.default_filter_of) (lent_layers values.now) }
    ensures { IsDefaultFilterOf profiles.now filters.now (names_at
        (parents_of (map named_of profiles.now)) places.now) (lent_layers values.now) result }
{
    let Some((near, _)) = nearest::<DefaultFilterKey, ProfileConfig>(values) else {
        unreachable!();
    };
    let place = places[near];
    let profile = profiles[place].name.as_str();
    match &filters[place] {
        Some(filter) => CompiledDefaultFilter {
            filter,
            profile,
            section: CompiledDefaultFilterSection::Profile,
        },
        None => unreachable!(),
    }
}

// The values of the profiles at some places.
fn values_at<'c>(
    alloc: Global,
    profiles: &'c [NamedProfile],
    places: &[usize],
) -> Result<Vec<&'c ProfileConfig>, AllocError>
    requires { All (λ place. place < length profiles.now) places.now }
    ensures { IfOk result
        (λ values. AreAt (map named_of profiles.now) places.now (lent_layers values.items)) }
{
    let mut values = Vec::with_capacity(alloc, places.len())?;
    for place in places {
        values.push(&profiles[*place].config)?;
    }
    Ok(values)
}

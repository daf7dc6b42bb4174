// The places of profiles by their names.
ghost use Rattle.std.specs.Prelude.{◌≡◌, ◌<◌, All, Contains, IfErr, IfNone, IfOk, IfSome, length};
ghost use Rattle.std.specs.Cmp.Lexicographic.{slice_cmp};
ghost use Rattle.std.specs.Ordering.{nat_cmp};
ghost use Rattle.nextest_config_resolution_inheritance.specs.Inheritance.{KnowsParent, Rise, SetsNoneIfReserved, default, names, next, name_at};
ghost use Rattle.nextest_config_resolution_inheritance.specs.Inherits.{parents_in};
ghost use Rattle.nextest_config_resolution_inheritance.specs.Places.{ArePlaces, IsPlaceOf};
ghost use Rattle.nextest_config_resolution_inheritance.specs.Refusals.{IsFirstFault, IsRefusedFor, IsUnknownParent};

use crate::inheritance_error::InheritanceError;
use crate::inheritance_fault::InheritanceFault;
use crate::inherits::Inherits;
use nextest_text::Text;
use std::alloc::Global;
use std::cmp::Ordering;

// The place of the profile of a name.
pub(crate) fn place_of<P: Inherits>(profiles: &[P], name: &str) -> Option<usize>
    requires { Rise (parents_in P.name_of P.parent_of profiles.now) }
    ensures within { IfSome result (λ place. place < length profiles.now) }
    ensures found { IfSome result
        (λ place. name_at (parents_in P.name_of P.parent_of profiles.now) place ≡ name.now) }
    ensures missing { IfNone result
        (¬ Contains (names (parents_in P.name_of P.parent_of profiles.now)) name.now) }
{
    profiles
        .binary_search_by(
            |profile: &P| -> Ordering
                ensures { result ≡ slice_cmp nat_cmp (P.name_of profile.now) name.entry.now }
            { profile.name().cmp(name) },
        )
        .ok()
}

// The place of a profile's parent, or one past the end where it sets none.
fn place_of_parent<P: Inherits>(
    alloc: Global,
    profiles: &[P],
    profile: &P,
) -> Result<usize, InheritanceError>
    requires { Rise (parents_in P.name_of P.parent_of profiles.now) }
    ensures place { IfOk result
        (IsPlaceOf (parents_in P.name_of P.parent_of profiles.now) (P.parent_of profile.now)) }
    ensures err { IfErr result (λ error. IsRefusedFor error (IsUnknownParent (parents_in P.name_of
        P.parent_of profiles.now) (P.name_of profile.now) (P.parent_of profile.now))) }
{
    match profile.inherits() {
        None => Ok(profiles.len()),
        Some(parent) => match place_of(profiles, parent) {
            Some(place) => Ok(place),
            None => Err(InheritanceError::Refused(InheritanceFault::UnknownParent {
                profile: Text::from_str(alloc, profile.name())?,
                parent: Text::from_str(alloc, parent)?,
            })),
        },
    }
}

// The place of each profile's parent, or one past the end where it sets none.
pub(crate) fn places_of_parents<P: Inherits>(
    alloc: Global,
    profiles: &[P],
) -> Result<Vec<usize>, InheritanceError>
    requires rise { Rise (parents_in P.name_of P.parent_of profiles.now) }
    requires reserved { All SetsNoneIfReserved (parents_in P.name_of P.parent_of profiles.now) }
    ensures places { IfOk result
        (λ places. ArePlaces (parents_in P.name_of P.parent_of profiles.now) places.items) }
    ensures err { IfErr result (λ error.
        IsRefusedFor error (IsFirstFault (parents_in P.name_of P.parent_of profiles.now))) }
{
    let mut places = Vec::with_capacity(alloc, profiles.len())?;
    for profile in profiles {
        let place = place_of_parent(alloc, profiles, profile)?;
        places.push(place)?;
    }
    Ok(places)
}

// The place of the profile that comes next in the chain of the one at a place.
pub(crate) fn place_of_next<P: Inherits>(profiles: &[P], here: usize) -> usize
    requires rise { Rise (parents_in P.name_of P.parent_of profiles.now) }
    requires known { let all = parents_in P.name_of P.parent_of profiles.now in All
        (KnowsParent all) all }
    requires has_default { Contains
        (names (parents_in P.name_of P.parent_of profiles.now)) default }
    requires here { here < length profiles.now }
    ensures within { result < length profiles.now }
    ensures name { let all = parents_in P.name_of P.parent_of profiles.now in name_at all result
        ≡ next all (name_at all here) }
{
    let parent = profiles[here].inherits().unwrap_or("default");
    place_of(profiles, parent).unwrap()
}

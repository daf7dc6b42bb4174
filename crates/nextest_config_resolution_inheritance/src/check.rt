// Whether profiles may inherit as they do.
ghost use Rattle.std.specs.Prelude.{◌≡◌, ◌||◌, All, IfErr, OnOk, codes, nat_eq};
ghost use Rattle.nextest_config_resolution_inheritance.specs.Inheritance.{IsAccepted, Rise, SetsNoneIfReserved, is_reserved};
ghost use Rattle.nextest_config_resolution_inheritance.specs.Inherits.{parents_in};
ghost use Rattle.nextest_config_resolution_inheritance.specs.Refusals.{IsFirstFault, IsRefusedFor};

use crate::endless::first_endless;
use crate::inheritance_error::InheritanceError;
use crate::inheritance_fault::InheritanceFault;
use crate::inherits::Inherits;
use crate::places::places_of_parents;
use nextest_text::Text;
use std::alloc::Global;

/// Whether profiles may inherit as they do: no profile with a reserved name, `default` or one that
/// begins with `default-`, sets a parent; each parent is the name of one of the profiles; the
/// parents of each come to `default`.
///
/// The names rise by their bytes. `default` itself needn't be among them.
///
/// # Errors
///
/// `Refused` says which rule is broken: each is asked of all profiles before the next, in this
/// order, and the first profile that breaks it is named. Want of memory says nothing of the
/// profiles.
pub fn check_inheritance<P: Inherits>(alloc: Global, profiles: &[P]) -> Result<(), InheritanceError>
    requires { Rise (parents_in P.name_of P.parent_of profiles.now) }
    ensures ok { OnOk result (IsAccepted (parents_in P.name_of P.parent_of profiles.now)) }
    ensures err { IfErr result (λ error.
        IsRefusedFor error (IsFirstFault (parents_in P.name_of P.parent_of profiles.now))) }
{
    check_reserved(alloc, profiles)?;
    let parents = places_of_parents(alloc, profiles)?;
    match first_endless(alloc, &parents)? {
        None => Ok(()),
        Some(place) => Err(InheritanceError::Refused(InheritanceFault::Cycle {
            profile: Text::from_str(alloc, profiles[place].name())?,
        })),
    }
}

// Whether no profile with a reserved name sets a parent.
fn check_reserved<P: Inherits>(alloc: Global, profiles: &[P]) -> Result<(), InheritanceError>
    ensures ok { OnOk result
        (All SetsNoneIfReserved (parents_in P.name_of P.parent_of profiles.now)) }
    ensures err { IfErr result (λ error.
        IsRefusedFor error (IsFirstFault (parents_in P.name_of P.parent_of profiles.now))) }
{
    for profile in profiles {
        if profile.inherits().is_some() && is_reserved(profile.name()) {
            return Err(InheritanceError::Refused(InheritanceFault::InheritsInDefault {
                profile: Text::from_str(alloc, profile.name())?,
            }));
        }
    }
    Ok(())
}

// Whether a name is `default`, or begins with `default-`.
fn is_reserved(name: &str) -> bool
    ensures { result ≡ is_reserved name.now }
{
    name == "default" || name.starts_with("default-")
}

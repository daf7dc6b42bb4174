// The chain of a profile.
ghost use Rattle.std.specs.Prelude.{◌<◌, All, Contains, IfOk, length};
ghost use Rattle.nextest_config_resolution_inheritance.specs.Inheritance.{IsAccepted, IsChain, Rise, default, names, name_at, names_at};
ghost use Rattle.nextest_config_resolution_inheritance.specs.Inherits.{parents_in};

use crate::inherits::Inherits;
use crate::places::place_of_next;
use std::alloc::{AllocError, Global};

/// The chain of the profile at a place, by places: the profile itself, its parents one after
/// another, and `default` last. It fails only on allocation.
///
/// The profiles are accepted by `check_inheritance`, and `default` is one of them.
pub fn chain_of<P: Inherits>(
    alloc: Global,
    profiles: &[P],
    place: usize,
) -> Result<Vec<usize>, AllocError>
    requires rise { Rise (parents_in P.name_of P.parent_of profiles.now) }
    requires accepted { IsAccepted (parents_in P.name_of P.parent_of profiles.now) }
    requires has_default { Contains
        (names (parents_in P.name_of P.parent_of profiles.now)) default }
    requires place { place < length profiles.now }
    ensures chain { let all = parents_in P.name_of P.parent_of profiles.now in
        IfOk result (λ chain. IsChain all (name_at all place) (names_at all chain.items)) }
    ensures within { IfOk result (λ chain. All (λ place. place < length profiles.now) chain.items) }
{
    let mut chain = Vec::new(alloc);
    let mut here = place;
    while profiles[here].name() != "default" {
        chain.push(here)?;
        here = place_of_next(profiles, here);
    }
    chain.push(here)?;
    Ok(chain)
}

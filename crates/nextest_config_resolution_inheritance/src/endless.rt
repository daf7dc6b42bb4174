// Which chain of places comes to no end.
ghost use Rattle.std.specs.Prelude.{◌≡◌, ◌+◌, ◌<◌, IfOk, length};
ghost use Rattle.std.specs.Bool.{OnFalse, OnTrue};
ghost use Rattle.nextest_config_resolution_inheritance.specs.Places.{AreKnown, IsFirstEndless, Leaves};

use std::alloc::{AllocError, Global};

// The first place from which the parents' places never come past the end. Each place is walked by
// once in all.
pub(crate) fn first_endless(alloc: Global, parents: &[usize]) -> Result<Option<usize>, AllocError>
    ensures { IfOk result (IsFirstEndless parents.now) }
{
    let mut stamps = vec![in alloc; parents.len(); parents.len()]?;
    let walks = stamps.as_mut_slice();
    for start in 0..parents.len() {
        if !leaves(parents, walks, start) {
            return Ok(Some(start));
        }
    }
    Ok(None)
}

// Whether the walk from a place comes past the end. At each place `walks` has the start of the walk
// that came by, which left, and else the number of places.
fn leaves(parents: &[usize], walks: &mut [usize], start: usize) -> bool
    requires within { start < length parents.now }
    requires each { length walks.old ≡ length parents.now }
    requires known { AreKnown parents.now walks.old start }
    ensures known { OnTrue result (AreKnown parents.now walks.new (start + 1)) }
    ensures ends { OnTrue result (Leaves parents.now start) }
    ensures endless { OnFalse result (¬ Leaves parents.now start) }
{
    let end = parents.len();
    let mut place = start;
    while place < end && walks[place] == end {
        walks[place] = start;
        place = parents[place];
    }
    place >= end || walks[place] != start
}

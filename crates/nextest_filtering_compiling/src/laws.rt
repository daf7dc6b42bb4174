//! What holds of all filtersets that are compiled. Each function does nothing, and its contract is
//! the law.
ghost use Rattle.nextest_filtering_compiling.specs.Laws.{KeepsMeaning, OneMeaning};

use nextest_filtering_filters::GroupLookup;

/// However a tree is compiled for a workspace, the filter is the same on every binary and on every
/// test, whoever is asked for groups.
pub fn one_meaning<G: GroupLookup>()
    ensures { OneMeaning G.member }
{}

/// Compiling keeps what a filterset means: on every binary and on every test the filter is what the
/// tree is, whoever is asked for groups.
pub fn kept_meaning<G: GroupLookup>()
    ensures { KeepsMeaning G.member }
{}

// The predicates that may not stand in a filterset.
ghost use Rattle.std.specs.Prelude.{◌≡◌, ◌++◌, IfOk, OnOk, map};
ghost use Rattle.nextest_filtering_ast.specs.Tree.{leaf_of};
ghost use Rattle.nextest_filtering_compiling.specs.Bans as words;
ghost use Rattle.nextest_filtering_compiling.specs.Bans.{ban_of, bans_of, fault_for};
ghost use Rattle.nextest_filtering_compiling.specs.Leaves.{behind};

use nextest_filtering_arguments::{BannedPredicateReason, FiltersetKind, ParseSingleError};
use nextest_filtering_ast::{ParsedLeaf, SourceSpan};
use std::alloc::{AllocError, Global};

// Why a predicate may not stand in a filterset of a kind, if it may not.
fn ban(kind: FiltersetKind, leaf: &ParsedLeaf) -> Option<BannedPredicateReason>
    ensures { result ≡ ban_of kind (leaf_of leaf.now) }
{
    match (kind, leaf) {
        (FiltersetKind::DefaultFilter, ParsedLeaf::Default(_)) => {
            Some(BannedPredicateReason::DefaultInfiniteRecursion)
        }
        (FiltersetKind::DefaultFilter, ParsedLeaf::Group(_, _)) => {
            Some(BannedPredicateReason::GroupNotAvailableInDefaultFilter)
        }
        (FiltersetKind::OverrideFilter, ParsedLeaf::Group(_, _)) => {
            Some(BannedPredicateReason::GroupCircularDependency)
        }
        (FiltersetKind::TestArchive, ParsedLeaf::Group(_, _)) => {
            Some(BannedPredicateReason::GroupNotAvailableInArchive)
        }
        (FiltersetKind::TestArchive, ParsedLeaf::Test(_, _)) => {
            Some(BannedPredicateReason::TestNotAvailableInArchive)
        }
        _ => None,
    }
}

// Where a predicate stands; `all` and `none` have no place.
fn place_of(leaf: &ParsedLeaf) -> SourceSpan
    ensures { result ≡ words.place_of leaf.now }
{
    match leaf {
        ParsedLeaf::Package(_, span)
        | ParsedLeaf::Deps(_, span)
        | ParsedLeaf::Rdeps(_, span)
        | ParsedLeaf::Kind(_, span)
        | ParsedLeaf::Binary(_, span)
        | ParsedLeaf::BinaryId(_, span)
        | ParsedLeaf::Platform(_, span)
        | ParsedLeaf::Test(_, span)
        | ParsedLeaf::Group(_, span)
        | ParsedLeaf::Default(span) => *span,
        ParsedLeaf::All | ParsedLeaf::None => SourceSpan {
            offset: 0,
            length: 0,
        },
    }
}

// Adds the fault of a predicate, where it may not stand in a filterset of a kind.
fn add_ban(
    kind: FiltersetKind,
    leaf: &ParsedLeaf,
    found: &mut Vec<ParseSingleError>,
) -> Result<(), AllocError>
    ensures { OnOk result (found.new.items ≡ found.old.items
        ++ fault_for kind (words.place_of leaf.now) (ban_of kind (leaf_of leaf.now))) }
{
    match ban(kind, leaf) {
        Some(reason) => Ok(found.push(ParseSingleError::BannedPredicate {
            kind,
            span: place_of(leaf),
            reason,
        })?),
        None => Ok(()),
    }
}

// The predicates that may not stand in a filterset of a kind, from left to right.
pub(crate) fn banned_in(
    alloc: Global,
    kind: FiltersetKind,
    leaves: &[&ParsedLeaf],
) -> Result<Vec<ParseSingleError>, AllocError>
    ensures { IfOk result (λ found. found.items ≡ bans_of kind (map behind leaves.now)) }
{
    let mut found = Vec::new(alloc);
    for leaf in leaves {
        add_ban(kind, leaf, &mut found)?;
    }
    Ok(found)
}

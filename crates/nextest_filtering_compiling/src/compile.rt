// What predicates are compiled to.
ghost use Rattle.std.specs.Prelude.{◌≡◌, [], IfOk, OnOk, map};
ghost use Rattle.nextest_filtering_ast.specs.Tree.{binary_id, binary_name, group, matcher_of, matching};
ghost use Rattle.nextest_filtering_compiling.specs.Asking.{subject_of};
ghost use Rattle.nextest_filtering_compiling.specs.Outcomes.{IsKept, IsOutcome, IsOutcomeAt};
ghost use Rattle.nextest_filtering_compiling.specs.Compiling.{AreCompiled};
ghost use Rattle.nextest_filtering_compiling.specs.Context.{Context};
ghost use Rattle.nextest_filtering_compiling.specs.Faults.{Have};
ghost use Rattle.nextest_filtering_compiling.specs.Leaves.{behind};
ghost use Rattle.nextest_filtering_filters.specs.declared.known_groups.KnownGroups as groups;

use crate::faults::{BinaryPart, lacks_binary, lacks_group};
use crate::packages::{Asks, named_places, packages_asked};
use crate::parse_context::ParseContext;
use nextest_filtering_arguments::ParseSingleError;
use nextest_filtering_ast::{NameMatcher, ParsedLeaf, SourceSpan};
use nextest_filtering_filters::{FiltersetLeaf, KnownGroups};
use std::alloc::{AllocError, Global};

// What a predicate is compiled to, or its fault.
#[derive(Drop)]
pub(crate) enum Outcome {
    Leaf(FiltersetLeaf),
    Fault(ParseSingleError),
}

// What predicates are compiled to, and their faults.
#[derive(Drop)]
pub(crate) struct Compiled {
    pub(crate) leaves: Vec<FiltersetLeaf>,
    pub(crate) faults: Vec<ParseSingleError>,
}

// A predicate that asks for packages.
fn about_packages(
    alloc: Global,
    cx: &ParseContext,
    asks: Asks,
    matcher: &NameMatcher,
    span: SourceSpan,
) -> Result<Outcome, AllocError>
    ensures { (known : groups.KnownGroups) → IfOk result
        (IsOutcomeAt cx.now known span (matching (subject_of asks) (matcher_of matcher.now))) }
{
    let named = named_places(alloc, cx, matcher)?;
    if named.is_empty() {
        return Ok(Outcome::Fault(ParseSingleError::NoPackageMatch(span)));
    }
    let ids = packages_asked(alloc, cx, asks, named.as_slice())?;
    Ok(Outcome::Leaf(FiltersetLeaf::Packages(ids)))
}

// A predicate that asks for a binary's id.
fn about_id(
    alloc: Global,
    cx: &ParseContext,
    matcher: &NameMatcher,
    span: SourceSpan,
) -> Result<Outcome, AllocError>
    ensures { (known : groups.KnownGroups) → IfOk result
        (IsOutcomeAt cx.now known span (matching binary_id (matcher_of matcher.now))) }
{
    if lacks_binary(alloc, cx, BinaryPart::Id, matcher)? {
        return Ok(Outcome::Fault(ParseSingleError::NoBinaryIdMatch(span)));
    }
    Ok(Outcome::Leaf(FiltersetLeaf::BinaryId(matcher.clone()?, span)))
}

// A predicate that asks for a binary's name.
fn about_name(
    alloc: Global,
    cx: &ParseContext,
    matcher: &NameMatcher,
    span: SourceSpan,
) -> Result<Outcome, AllocError>
    ensures { (known : groups.KnownGroups) → IfOk result
        (IsOutcomeAt cx.now known span (matching binary_name (matcher_of matcher.now))) }
{
    if lacks_binary(alloc, cx, BinaryPart::Name, matcher)? {
        return Ok(Outcome::Fault(ParseSingleError::NoBinaryNameMatch(span)));
    }
    Ok(Outcome::Leaf(FiltersetLeaf::Binary(matcher.clone()?, span)))
}

// A predicate that asks for a test's group.
fn about_group(
    alloc: Global,
    known: &KnownGroups,
    matcher: &NameMatcher,
    span: SourceSpan,
) -> Result<Outcome, AllocError>
    ensures { (cx : Context)
        → IfOk result (IsOutcomeAt cx known.now span (matching group (matcher_of matcher.now))) }
{
    if lacks_group(alloc, known, matcher)? {
        return Ok(Outcome::Fault(ParseSingleError::NoGroupMatch(span)));
    }
    Ok(Outcome::Leaf(FiltersetLeaf::Group(matcher.clone()?, span)))
}

// What a predicate is compiled to, or its fault.
fn compile_leaf(
    alloc: Global,
    cx: &ParseContext,
    known: &KnownGroups,
    leaf: &ParsedLeaf,
) -> Result<Outcome, AllocError>
    ensures { IfOk result (IsOutcome cx.now known.now leaf.now) }
{
    match leaf {
        ParsedLeaf::Package(matcher, span) => {
            about_packages(alloc, cx, Asks::Named, matcher, *span)
        }
        ParsedLeaf::Deps(matcher, span) => about_packages(alloc, cx, Asks::Reached, matcher, *span),
        ParsedLeaf::Rdeps(matcher, span) => {
            about_packages(alloc, cx, Asks::Reaching, matcher, *span)
        }
        ParsedLeaf::Kind(matcher, span) => {
            Ok(Outcome::Leaf(FiltersetLeaf::Kind(matcher.clone()?, *span)))
        }
        ParsedLeaf::Binary(matcher, span) => about_name(alloc, cx, matcher, *span),
        ParsedLeaf::BinaryId(matcher, span) => about_id(alloc, cx, matcher, *span),
        ParsedLeaf::Platform(platform, span) => {
            Ok(Outcome::Leaf(FiltersetLeaf::Platform(*platform, *span)))
        }
        ParsedLeaf::Test(matcher, span) => {
            Ok(Outcome::Leaf(FiltersetLeaf::Test(matcher.clone()?, *span)))
        }
        ParsedLeaf::Group(matcher, span) => about_group(alloc, known, matcher, *span),
        ParsedLeaf::Default(_) => Ok(Outcome::Leaf(FiltersetLeaf::Default)),
        ParsedLeaf::All => Ok(Outcome::Leaf(FiltersetLeaf::All)),
        ParsedLeaf::None => Ok(Outcome::Leaf(FiltersetLeaf::None)),
    }
}

// Keeps what a predicate is compiled to, or its fault.
fn keep(
    outcome: Outcome,
    made: &mut Vec<FiltersetLeaf>,
    faults: &mut Vec<ParseSingleError>,
) -> Result<(), AllocError>
    ensures { OnOk result
        (IsKept outcome made.old.items faults.old.items made.new.items faults.new.items) }
{
    match outcome {
        Outcome::Leaf(leaf) => Ok(made.push(leaf)?),
        Outcome::Fault(fault) => Ok(faults.push(fault)?),
    }
}

// What predicates are compiled to, and their faults, from left to right.
pub(crate) fn compile_leaves(
    alloc: Global,
    cx: &ParseContext,
    known: &KnownGroups,
    leaves: &[&ParsedLeaf],
) -> Result<Compiled, AllocError>
    ensures faults { IfOk result
        (λ it. Have cx.now known.now (map behind leaves.now) it.faults.items) }
    ensures leaves { IfOk result (λ it. it.faults.items ≡ []
        → AreCompiled cx.now.graph (map behind leaves.now) it.leaves.items) }
{
    let mut made = Vec::new(alloc);
    let mut faults = Vec::new(alloc);
    for leaf in leaves {
        keep(
            compile_leaf(alloc, cx, known, leaf)?,
            &mut made,
            &mut faults,
        )?;
    }
    Ok(Compiled {
        leaves: made,
        faults,
    })
}

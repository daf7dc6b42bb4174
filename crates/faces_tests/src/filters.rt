// A text is read as a filterset, and the filterset is asked.
ghost use Rattle.std.specs.Prelude.{IfOk, Some};
ghost use Rattle.nextest_filtering.specs.Accepting.{Parses};
ghost use Rattle.nextest_filtering.specs.Filter.{filter_of};
ghost use Rattle.nextest_filtering.specs.FilterMeaning.{CanBeOn, IsOn};
ghost use Rattle.nextest_filtering.specs.FiltersetKind.TheVariants as kinds;
ghost use Rattle.nextest_filtering.specs.Formula.{IsValue};
ghost use Rattle.nextest_filtering.specs.Query.{binary_of, test_of};
ghost use Rattle.nextest_filtering.specs.Reading.{IsReadingOf};

use nextest_filtering::{
    BinaryQuery, EvalContext, Filterset, FiltersetError, FiltersetKind, GroupLookup, KnownGroups,
    ParseContext, Reading, TestQuery, Text, read,
};
use std::alloc::{AllocError, Global};

/// What a text is read as, with all its faults.
pub fn read_filterset(alloc: Global, text: &str) -> Result<Reading, AllocError>
    ensures { IfOk result (λ it. IsReadingOf text.now it) }
{
    read(alloc, text)
}

/// The filterset that chooses the tests of a run, in a workspace where these groups are known.
pub fn chosen(
    alloc: Global,
    text: Text,
    workspace: &ParseContext,
    groups: &KnownGroups,
) -> Result<Filterset, FiltersetError>
    ensures { Parses workspace.now kinds.Test groups.now text result }
{
    Filterset::parse(alloc, text, workspace, FiltersetKind::Test, groups)
}

/// What a filterset is on a binary, whatever its tests are; `None` where tests tell.
pub fn on_binary(
    alloc: Global,
    filterset: &Filterset,
    binary: &BinaryQuery<'_>,
    default: &EvalContext<'_>,
) -> Result<Option<bool>, AllocError>
    ensures { IfOk result (IsValue (CanBeOn (filter_of filterset.now.compiled)
        (filter_of default.now) (binary_of binary.now))) }
{
    filterset.matches_binary(alloc, binary, default)
}

/// Whether a filterset holds on a test, where this tells the groups of tests.
pub fn on_test<G: GroupLookup>(
    alloc: Global,
    filterset: &Filterset,
    test: &TestQuery<'_>,
    default: &EvalContext<'_>,
    groups: &G,
) -> Result<bool, AllocError>
    ensures { IfOk result (λ value. IsValue
        (IsOn (filter_of filterset.now.compiled) (filter_of default.now) (test_of test.now)
        (G.member groups.now (test_of test.now))) (Some value)) }
{
    filterset.matches_test_with_groups(alloc, test, default, groups)
}

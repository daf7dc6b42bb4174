// Filtersets.
ghost use Rattle.std.specs.Prelude.{◌≡◌, ◌↔◌, IfOk, Some, true, false, codes};
ghost use Rattle.std.specs.List.{AllZip, list_any};
ghost use Rattle.std.specs.Str.Iter.{HasSubslice};
ghost use Rattle.nextest_filtering_filters.specs.Formula.{IsValue};
ghost use Rattle.nextest_filtering_filters.specs.Filter.{filter_of, is_group};
ghost use Rattle.nextest_filtering_filters.specs.Meaning.{CanBeOn, IsOn};
ghost use Rattle.nextest_filtering_filters.specs.Query.{binary_of, test_of};
ghost use Rattle.nextest_filtering_compiling.specs.Accepting.{Parses};
ghost use Rattle.nextest_filtering_compiling.specs.Outcomes.{IsFiltered};

use crate::bans::banned_in;
use crate::compile::{Compiled, compile_leaves};
use crate::error::{FiltersetError, FiltersetParseErrors};
use crate::leaves::leaves_of;
use crate::parse_context::ParseContext;
use crate::shape::shape_of;
use nextest_filtering_arguments::{FiltersetKind, ParseSingleError};
use nextest_filtering_filters::{
    BinaryQuery, CompiledExpr, EvalContext, GroupLookup, KnownGroups, TestQuery,
};
use nextest_filtering_syntax::{ParsedExpr, Reading, needs_deps, read};
use nextest_text::Text;
use std::alloc::{AllocError, Global};

/// A filterset: its text, its tree as it was written, and the filter that it is in a workspace.
#[derive(Clone, Drop)]
pub struct Filterset {
    /// The text.
    pub input: Text,
    /// The tree, as it was written.
    pub parsed: ParsedExpr,
    /// The filter.
    pub compiled: CompiledExpr,
}

// The filter that a tree is, or the faults for which it is refused.
#[derive(Drop)]
enum Filtered {
    Filter(CompiledExpr),
    Faults(Vec<ParseSingleError>),
}

// The filter that a tree is, or its faults: the predicates that may not stand there, else those
// that nothing can be.
fn compile(
    alloc: Global,
    tree: &ParsedExpr,
    cx: &ParseContext,
    kind: FiltersetKind,
    known_groups: &KnownGroups,
) -> Result<Filtered, AllocError>
    ensures { IfOk result (IsFiltered cx.now kind known_groups.now tree.now) }
{
    let leaves = leaves_of(alloc, tree)?;
    let banned = banned_in(alloc, kind, leaves.as_slice())?;
    if !banned.is_empty() {
        return Ok(Filtered::Faults(banned));
    }
    let Compiled {
        leaves: made,
        faults,
    } = compile_leaves(alloc, cx, known_groups, leaves.as_slice())?;
    if !faults.is_empty() {
        return Ok(Filtered::Faults(faults));
    }
    Ok(Filtered::Filter(CompiledExpr::new(shape_of(alloc, tree, leaves.as_slice())?, made)))
}

impl Filterset {
    /// The filterset of a text, for a workspace and a purpose, where these groups are known. An
    /// `Err` has the text with its faults: those of the text itself; else the predicates that may
    /// not stand in a filterset of this kind; else those that nothing in the workspace can be: no
    /// package has such a name, no group, and, where binaries are known, none has such an id or
    /// name. Or there was no memory, which says nothing of the text.
    pub fn parse(
        alloc: Global,
        input: Text,
        cx: &ParseContext,
        kind: FiltersetKind,
        known_groups: &KnownGroups,
    ) -> Result<Filterset, FiltersetError>
        ensures { Parses cx.now kind known_groups.now input result }
    {
        let Reading { tree, faults } = read(alloc, input.as_str())?;
        let Some(parsed) = tree else {
            return Err(FiltersetError::Refused(FiltersetParseErrors {
                input,
                errors: faults,
            }));
        };
        if !faults.is_empty() {
            return Err(FiltersetError::Refused(FiltersetParseErrors {
                input,
                errors: faults,
            }));
        }
        match compile(alloc, &parsed, cx, kind, known_groups)? {
            Filtered::Filter(compiled) => Ok(Filterset {
                input,
                parsed,
                compiled,
            }),
            Filtered::Faults(errors) => {
                Err(FiltersetError::Refused(FiltersetParseErrors { input, errors }))
            }
        }
    }

    /// Whether a text may ask what depends on what: whether it contains `deps`. It takes no memory.
    pub fn needs_deps(text: &str) -> bool
        ensures { (result ≡ true) ↔ HasSubslice text.now (codes "deps") }
    {
        needs_deps(text)
    }

    /// The value of its filter on a binary, as `CompiledExpr::matches_binary` tells it.
    pub fn matches_binary(
        &self,
        alloc: Global,
        query: &BinaryQuery<'_>,
        ecx: &EvalContext<'_>,
    ) -> Result<Option<bool>, AllocError>
        ensures { IfOk result (IsValue
            (CanBeOn (filter_of self.now.compiled) (filter_of ecx.now) (binary_of query.now))) }
    {
        self.compiled.matches_binary(alloc, query, ecx)
    }

    /// Whether its filter, which asks for no group, holds on a test, as
    /// `CompiledExpr::matches_test` tells it.
    pub fn matches_test(
        &self,
        alloc: Global,
        query: &TestQuery<'_>,
        ecx: &EvalContext<'_>,
    ) -> Result<bool, AllocError>
        requires no_group { list_any is_group self.now.compiled.leaves ≡ false }
        ensures { IfOk result (λ value. IsValue (IsOn (filter_of self.now.compiled)
            (filter_of ecx.now) (test_of query.now) (λ matcher. ⊥)) (Some value)) }
    {
        self.compiled.matches_test(alloc, query, ecx)
    }

    /// Whether its filter, which asks for no group, holds on each of some tests of a binary, as
    /// `CompiledExpr::matches_tests` tells it.
    pub fn matches_tests(
        &self,
        alloc: Global,
        binary: &BinaryQuery<'_>,
        names: &[&str],
        ecx: &EvalContext<'_>,
    ) -> Result<Vec<bool>, AllocError>
        requires no_group { list_any is_group self.now.compiled.leaves ≡ false }
        ensures { IfOk result (λ values. AllZip (λ name value. IsValue
            (IsOn (filter_of self.now.compiled) (filter_of ecx.now) (record {
              binary = binary_of binary.now;
              name = name.now;
            }) (λ matcher. ⊥)) (Some value)) names.now values.items) }
    {
        self.compiled.matches_tests(alloc, binary, names, ecx)
    }

    /// Whether its filter holds on a test, as `CompiledExpr::matches_test_with_groups` tells it.
    pub fn matches_test_with_groups<G: GroupLookup>(
        &self,
        alloc: Global,
        query: &TestQuery<'_>,
        ecx: &EvalContext<'_>,
        groups: &G,
    ) -> Result<bool, AllocError>
        ensures { IfOk result (λ value. IsValue (IsOn (filter_of self.now.compiled) (filter_of
            ecx.now) (test_of query.now) (G.member groups.now (test_of query.now))) (Some value)) }
    {
        self.compiled
            .matches_test_with_groups(alloc, query, ecx, groups)
    }
}

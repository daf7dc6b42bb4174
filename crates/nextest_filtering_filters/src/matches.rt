// Filters on one binary, and on one test.
ghost use Rattle.std.specs.Prelude.{◌≡◌, false, Some, IfOk};
ghost use Rattle.std.specs.List.{AllZip, list_any};
ghost use Rattle.nextest_filtering_filters.specs.Formula.{IsValue};
ghost use Rattle.nextest_filtering_filters.specs.Filter.{filter_of, is_group};
ghost use Rattle.nextest_filtering_filters.specs.Meaning.{CanBeOn, IsOn};
ghost use Rattle.nextest_filtering_filters.specs.Query.{binary_of, test_of};

use crate::compiled::CompiledExpr;
use crate::context::EvalContext;
use crate::evaluator::BinaryEvaluator;
use crate::group_lookup::GroupLookup;
use crate::query::{BinaryQuery, TestQuery};
use nextest_filtering_ast::NameMatcher;
use std::alloc::{AllocError, Global};

// Knows of no group. It isn't asked.
struct NoGroups;

impl GroupLookup for NoGroups {
    ghost member = { λ groups test matcher. ⊥ };

    fn is_member_test(&self, _: &TestQuery<'_>, _: &NameMatcher) -> Result<bool, AllocError> {
        Ok(false)
    }
}

impl CompiledExpr {
    /// The value that the filter has on a binary whatever its tests are, each place that asks for a
    /// test's name or group apart from all others; `None` where it can be true and can be false. It
    /// fails only on allocation.
    pub fn matches_binary(
        &self,
        alloc: Global,
        query: &BinaryQuery<'_>,
        ecx: &EvalContext<'_>,
    ) -> Result<Option<bool>, AllocError>
        ensures { IfOk result
            (IsValue (CanBeOn (filter_of self.now) (filter_of ecx.now) (binary_of query.now))) }
    {
        let mut evaluator = BinaryEvaluator::new(alloc, self, ecx, query)?;
        evaluator.matches_binary()
    }

    /// Whether the filter, which asks for no group, holds on a test. It fails only on allocation.
    /// Who asks for many tests makes a `BinaryEvaluator` and keeps it.
    pub fn matches_test(
        &self,
        alloc: Global,
        query: &TestQuery<'_>,
        ecx: &EvalContext<'_>,
    ) -> Result<bool, AllocError>
        requires no_group { list_any is_group self.now.leaves ≡ false }
        ensures { IfOk result (λ value. IsValue (IsOn (filter_of self.now) (filter_of ecx.now)
            (test_of query.now) (λ matcher. ⊥)) (Some value)) }
    {
        self.matches_test_with_groups(alloc, query, ecx, &NoGroups)
    }

    /// Whether the filter, which asks for no group, holds on each of some tests of a binary, by
    /// their names and in their order: what its matchers take is made once. It fails only on
    /// allocation.
    pub fn matches_tests(
        &self,
        alloc: Global,
        binary: &BinaryQuery<'_>,
        names: &[&str],
        ecx: &EvalContext<'_>,
    ) -> Result<Vec<bool>, AllocError>
        requires no_group { list_any is_group self.now.leaves ≡ false }
        ensures { IfOk result (λ values. AllZip (λ name value. IsValue (IsOn (filter_of self.now)
            (filter_of ecx.now) (record { binary = binary_of binary.now; name = name.now })
            (λ matcher. ⊥)) (Some value)) names.now values.items) }
    {
        let mut evaluator = BinaryEvaluator::new(alloc, self, ecx, binary)?;
        evaluator.matches_tests(alloc, names)
    }

    /// Whether the filter holds on a test, whose groups this look-up knows. It fails only on
    /// allocation. Who asks for many tests makes a `BinaryEvaluator` and keeps it.
    pub fn matches_test_with_groups<G: GroupLookup>(
        &self,
        alloc: Global,
        query: &TestQuery<'_>,
        ecx: &EvalContext<'_>,
        groups: &G,
    ) -> Result<bool, AllocError>
        ensures { IfOk result (λ value. IsValue (IsOn (filter_of self.now) (filter_of ecx.now)
            (test_of query.now) (G.member groups.now (test_of query.now))) (Some value)) }
    {
        let mut evaluator = BinaryEvaluator::new(alloc, self, ecx, &query.binary_query)?;
        evaluator.matches_test_with_groups(query.test_name, groups)
    }
}

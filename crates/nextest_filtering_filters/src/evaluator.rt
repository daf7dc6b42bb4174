// A filter on a binary and its tests.
ghost use Rattle.std.specs.Prelude.{◌≡◌, false, Some, IfOk, IfSome};
ghost use Rattle.std.specs.List.{AllZip, list_any};
ghost use Rattle.nextest_filtering_filters.specs.Formula.{AreValues, Gives, IsValue};
ghost use Rattle.nextest_filtering_filters.specs.Values.{IsSome};
ghost use Rattle.nextest_filtering_ast.specs.Meaning.{MatchesName};
ghost use Rattle.nextest_filtering_filters.specs.Asking.{IsKept, left_by};
ghost use Rattle.nextest_filtering_filters.specs.Filter.{filter_of, is_default};
ghost use Rattle.nextest_filtering_filters.specs.Meaning.{CanBeOn, Either, IsOn, MayBe, Never, Tells};
ghost use Rattle.nextest_filtering_filters.specs.Query.{Test, binary_of, test_of};

use crate::compiled::CompiledExpr;
use crate::context::EvalContext;
use crate::group_lookup::GroupLookup;
use crate::part::Part;
use crate::query::{BinaryQuery, TestQuery};
use crate::values::Values;
use std::alloc::{AllocError, Global};
use std::marker::Model;

// What holds nowhere.
const NOWHERE: Values = Values {
    may_hold: false,
    may_fail: true,
};

/// A filter on a binary, which is asked of as many of the binary's tests as wanted: what its
/// regular expressions take is made once, and a test takes no memory but for a glob on a name
/// longer than all before. In a clause it is the filter, the default filter and the binary.
pub struct BinaryEvaluator<'f> {
    main: Part<'f>,
    // Nothing is kept of the default filter where the filter doesn't ask for it.
    default: Option<Part<'f>>,
    default_filter: &'f CompiledExpr,
    binary: BinaryQuery<'f>,
    // One of both filters asks for a test's group.
    groups_matter: bool,
}

impl<'f> Drop for BinaryEvaluator<'f> {
    fn drop(self) {
        let Self {
            main: _,
            default: _,
            default_filter: _,
            binary: _,
            groups_matter: _,
        } = self;
    }
}

impl<'f> Model for BinaryEvaluator<'f> {
    ghost use Rattle.std.specs.Prelude.{◌≡◌, ◌||◌, false};
    ghost use Rattle.std.specs.List.{list_any};
    ghost use Rattle.nextest_filtering_filters.specs.Asking.{Asking, IsKept};
    ghost use Rattle.nextest_filtering_filters.specs.Filter.{is_default, is_group};
    ghost use Rattle.nextest_filtering_filters.specs.Query.{binary_of};

    ghost Value = { Asking };

    ghost view = { λ it. record {
      filter = it.main.filter;
      default = it.default_filter.now;
      binary = binary_of it.binary;
    } };

    ghost invariant = { λ it. (it.main.binary ≡ binary_of it.binary)
        × (list_any is_default it.default_filter.now.leaves ≡ false)
        × (it.groups_matter ≡ (list_any is_group it.main.filter.leaves
        || list_any is_group it.default_filter.now.leaves))
        × IsKept it.main.filter it.default_filter.now (binary_of it.binary) it.default };
}

// The values that one value, or none that is known, leaves.
fn values_of(value: Option<bool>) -> Values
    ensures { result ≡ left_by value }
{
    Values {
        may_hold: value != Some(false),
        may_fail: value != Some(true),
    }
}

// What is kept of a default filter on a binary, beside a filter: nothing where the filter doesn't
// ask for it.
fn default_part<'f>(
    alloc: Global,
    filter: &CompiledExpr,
    default: &'f CompiledExpr,
    binary: &BinaryQuery<'f>,
) -> Result<Option<Part<'f>>, AllocError>
    ensures { IfOk result (IsKept filter.now default.now (binary_of binary.now)) }
{
    if filter.has_default() {
        Ok(Some(Part::new(alloc, default, *binary)?))
    } else {
        Ok(None)
    }
}

// The values that a default filter may have on its binary, where it is asked for.
fn default_values(default: &mut Option<Part<'_>>) -> Result<Values, AllocError>
    requires none { IfSome default.old (λ part. list_any is_default part.filter.leaves ≡ false) }
    ensures values { IfOk result (λ values. IfSome default.old (λ part.
        AreValues (Gives (MayBe part.binary Either Either Never) (filter_of part.filter)) values)) }
    ensures some { IfOk result IsSome }
    ensures same { default.new ≡ default.old }
{
    match default {
        Some(part) => Ok(values_of(part.on_binary(NOWHERE)?)),
        None => Ok(NOWHERE),
    }
}

// Whether a default filter holds on a test, where it is asked for.
fn default_value<G: GroupLookup>(
    default: &mut Option<Part<'_>>,
    test: &TestQuery<'_>,
    groups: &G,
) -> Result<bool, AllocError>
    requires none { IfSome default.old (λ part. list_any is_default part.filter.leaves ≡ false) }
    ensures value { IfOk result (λ value. IfSome default.old (λ part. IsValue (Gives
        (MayBe part.binary (λ m. Tells (MatchesName m (test_of test.now).name))
        (λ m. Tells (G.member groups.now (test_of test.now) m)) Never)
        (filter_of part.filter)) (Some value))) }
    ensures same { default.new ≡ default.old }
{
    match default {
        Some(part) => part.on_test(test, false, groups),
        None => Ok(false),
    }
}

// Whether a default filter holds on a test of this name, whose groups nobody knows, where it is
// asked for.
fn default_on_name(default: &mut Option<Part<'_>>, name: &str) -> Result<bool, AllocError>
    requires none { IfSome default.old (λ part. list_any is_default part.filter.leaves ≡ false) }
    ensures value { IfOk result (λ value. IfSome default.old (λ part. IsValue (Gives
        (MayBe part.binary (λ m. Tells (MatchesName m name.now)) (λ m. Tells ⊥) Never)
        (filter_of part.filter)) (Some value))) }
    ensures same { default.new ≡ default.old }
{
    match default {
        Some(part) => part.on_name(name, false),
        None => Ok(false),
    }
}

impl<'f> BinaryEvaluator<'f> {
    /// A filter on a binary. It fails only on allocation.
    pub fn new(
        alloc: Global,
        filter: &'f CompiledExpr,
        ecx: &EvalContext<'f>,
        binary: &BinaryQuery<'f>,
    ) -> Result<BinaryEvaluator<'f>, AllocError>
        ensures filter { IfOk result (λ it. it.filter ≡ filter.now) }
        ensures default { IfOk result (λ it. it.default ≡ ecx.now) }
        ensures binary { IfOk result (λ it. it.binary ≡ binary_of binary.now) }
    {
        let default_filter = ecx.default_filter();
        Ok(BinaryEvaluator {
            main: Part::new(alloc, filter, *binary)?,
            default: default_part(alloc, filter, default_filter, binary)?,
            default_filter,
            binary: *binary,
            groups_matter: filter.has_group_matchers() || default_filter.has_group_matchers(),
        })
    }

    /// The value that the filter has on the binary whatever its tests are, each place that asks for
    /// a test's name or group apart from all others; `None` where it can be true and can be false.
    /// It fails only on allocation.
    pub fn matches_binary(&mut self) -> Result<Option<bool>, AllocError>
        ensures value { IfOk result (IsValue
            (CanBeOn (filter_of self.old.filter) (filter_of self.old.default) self.old.binary)) }
        ensures same { self.new ≡ self.old }
    {
        let default = default_values(&mut self.default)?;
        self.main.on_binary(default)
    }

    /// Whether the filter holds on a test of the binary, whose groups this look-up knows. It fails
    /// only on allocation.
    pub fn matches_test_with_groups<G: GroupLookup>(
        &mut self,
        test_name: &str,
        groups: &G,
    ) -> Result<bool, AllocError>
        ensures value { IfOk result (λ value. IsValue
            (IsOn (filter_of self.old.filter) (filter_of self.old.default)
            (record { binary = self.old.binary; name = test_name.now })
            (G.member groups.now (record { binary = self.old.binary; name = test_name.now })))
            (Some value)) }
        ensures same { self.new ≡ self.old }
    {
        if self.groups_matter {
            return self.matches_test_asking(test_name, groups);
        }
        self.matches_name(test_name)
    }

    // The same, where the groups are asked for.
    fn matches_test_asking<G: GroupLookup>(
        &mut self,
        test_name: &str,
        groups: &G,
    ) -> Result<bool, AllocError>
        ensures value { IfOk result (λ value. IsValue
            (IsOn (filter_of self.old.filter) (filter_of self.old.default)
            (record { binary = self.old.binary; name = test_name.now })
            (G.member groups.now (record { binary = self.old.binary; name = test_name.now })))
            (Some value)) }
        ensures same { self.new ≡ self.old }
    {
        let test = TestQuery {
            binary_query: self.binary,
            test_name,
        };
        let default = default_value(&mut self.default, &test, groups)?;
        self.main.on_test(&test, default, groups)
    }

    // Whether the filter holds on a test of the binary that has this name and whose groups nobody
    // knows. Just those predicates are asked whose answers matter.
    fn matches_name(&mut self, test_name: &str) -> Result<bool, AllocError>
        ensures value { IfOk result (λ value. IsValue
            (IsOn (filter_of self.old.filter) (filter_of self.old.default)
            (record { binary = self.old.binary; name = test_name.now }) (λ matcher. ⊥))
            (Some value)) }
        ensures same { self.new ≡ self.old }
    {
        let default = default_on_name(&mut self.default, test_name)?;
        self.main.on_name(test_name, default)
    }

    // The same for each of some tests, by their names and in their order.
    pub(crate) fn matches_tests(
        &mut self,
        alloc: Global,
        names: &[&str],
    ) -> Result<Vec<bool>, AllocError>
        ensures values { IfOk result (λ values. AllZip (λ name value. IsValue (IsOn
            (filter_of self.old.filter) (filter_of self.old.default)
            (record { binary = self.old.binary; name = name.now }) (λ matcher. ⊥)) (Some value))
            names.now values.items) }
        ensures same { self.new ≡ self.old }
    {
        if self.default.is_none() {
            return self.main.on_names(alloc, names);
        }
        let mut values = Vec::with_capacity(alloc, names.len())?;
        for name in names {
            values.push(self.matches_name(name)?)?;
        }
        Ok(values)
    }
}

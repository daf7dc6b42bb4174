// A filter on a binary, asked of the binary's tests.
ghost use Rattle.std.specs.Prelude.{◌≡◌, ℕ, Bool, false, List, Some, IfOk, IfSome};
ghost use Rattle.std.specs.List.{AllZip};
ghost use Rattle.nextest_filtering_filters.specs.Formula.{Gives, IsValue};
ghost use Rattle.nextest_filtering_filters.specs.Values.{IsSome};
ghost use Rattle.nextest_filtering_filters.specs.Asking.{AreLeafValues, AreOn, IsFor, IsLeafValue, values_may};
ghost use Rattle.nextest_filtering_filters.specs.Filter.{filter_of};
ghost use Rattle.nextest_filtering_filters.specs.Meaning.{Either, MayBe};
ghost use Rattle.nextest_filtering_filters.specs.Query.{Binary, binary_of, test_of};
ghost use Rattle.nextest_filtering_filters.specs.declared.leaf.FiltersetLeaf.{FiltersetLeaf};

use crate::asked::{Asked, answer, answers};
use crate::compiled::CompiledExpr;
use crate::group_lookup::GroupLookup;
use crate::leaf::FiltersetLeaf;
use crate::query::{BinaryQuery, TestQuery};
use crate::questions::{Next, Questions};
use crate::readable::see_leaves;
use crate::values::Values;
use std::alloc::{AllocError, Global};
use std::marker::Model;

// What may be so and may not be.
const EITHER: Values = Values {
    may_hold: true,
    may_fail: true,
};

// A filter on a binary, with what it takes to ask it of the binary's tests.
pub(crate) struct Part<'f> {
    filter: &'f CompiledExpr,
    binary: BinaryQuery<'f>,
    asked: Vec<Asked<'f>>,
    questions: Questions,
    values: Vec<Values>,
    waiting: Vec<Values>,
}

impl<'f> Drop for Part<'f> {
    fn drop(self) {
        let Self {
            filter: _,
            binary: _,
            asked: _,
            questions: _,
            values: _,
            waiting: _,
        } = self;
    }
}

impl<'f> Model for Part<'f> {
    ghost use Rattle.std.specs.List.{AllZip};
    ghost use Rattle.std.specs.Prelude.{All};
    ghost use Rattle.nextest_filtering_filters.specs.Asking.{AreQuestionsOf, IsFor, PartOf};
    ghost use Rattle.nextest_filtering_filters.specs.Deciding.{HasReadable};
    ghost use Rattle.nextest_filtering_filters.specs.Query.{binary_of};

    ghost Value = { PartOf };

    ghost view = { λ it. record { filter = it.filter.now; binary = binary_of it.binary } };

    // What is asked is asked of the predicates, each of which has an answer, and the questions come
    // to what the filter is.
    ghost invariant = { λ it.
        AllZip (IsFor (binary_of it.binary)) it.filter.now.leaves it.asked.items
        × All HasReadable it.filter.now.leaves
        × AreQuestionsOf (binary_of it.binary) it.filter.now it.questions };
}

// What each predicate is on a binary, or asks of its tests.
fn asked_of<'f>(
    alloc: Global,
    leaves: &'f [FiltersetLeaf],
    binary: &BinaryQuery<'_>,
) -> Result<Vec<Asked<'f>>, AllocError>
    ensures { IfOk result (λ asked. AllZip (IsFor (binary_of binary.now)) leaves.now asked.items) }
{
    let mut asked = Vec::with_capacity(alloc, leaves.len())?;
    for leaf in leaves {
        asked.push(Asked::new(alloc, leaf, binary)?)?;
    }
    Ok(asked)
}

// The values that each predicate may have on the binary, in place of others.
fn values_on_binary(
    asked: &[Asked<'_>],
    default: Values,
    values: &mut Vec<Values>,
) -> Result<(), AllocError>
    requires some { IsSome default }
    ensures { IfOk result (λ _. (binary : Binary) (leaves : List FiltersetLeaf) → AllZip
        (IsFor binary) leaves asked.now → AllZip (AreOn binary default) leaves values.new.items) }
{
    values.clear();
    for it in asked {
        values.push(it.on_binary(default))?;
    }
    Ok(())
}

// The value that one predicate has on a test.
fn values_of_one<G: GroupLookup>(
    asked: &mut Asked<'_>,
    test: &TestQuery<'_>,
    default: bool,
    groups: &G,
) -> Result<Values, AllocError>
    ensures value { IfOk result (λ values. (binary : Binary) (leaf : FiltersetLeaf)
        → IsFor binary leaf asked.old → AreLeafValues binary (test_of test.now).name
        (G.member groups.now (test_of test.now)) default leaf values) }
    ensures stays { (binary : Binary) (leaf : FiltersetLeaf) → IsFor binary leaf asked.old
        → IsFor binary leaf asked.new }
{
    let value = asked.on_test(test, default, groups)?;
    Ok(Values {
        may_hold: value,
        may_fail: !value,
    })
}

// The value that each predicate has on a test, in place of others.
fn values_on_test<G: GroupLookup>(
    asked: &mut [Asked<'_>],
    test: &TestQuery<'_>,
    default: bool,
    groups: &G,
    values: &mut Vec<Values>,
) -> Result<(), AllocError>
    ensures values { IfOk result (λ _. (binary : Binary) (leaves : List FiltersetLeaf)
        → AllZip (IsFor binary) leaves asked.old
        → AllZip (AreLeafValues binary (test_of test.now).name
        (G.member groups.now (test_of test.now)) default) leaves values.new.items) }
    ensures stays { (binary : Binary) (leaves : List FiltersetLeaf)
        → AllZip (IsFor binary) leaves asked.old → AllZip (IsFor binary) leaves asked.new }
{
    values.clear();
    for it in asked.iter_mut() {
        values.push(values_of_one(it, test, default, groups)?)?;
    }
    Ok(())
}

// The one value, where there is one.
fn one_value(value: Option<bool>) -> bool
    ensures { (one : Bool) → value ≡ Some one → result ≡ one }
{
    value == Some(true)
}

impl<'f> Part<'f> {
    // A filter on a binary.
    pub(crate) fn new(
        alloc: Global,
        filter: &'f CompiledExpr,
        binary: BinaryQuery<'f>,
    ) -> Result<Part<'f>, AllocError>
        ensures filter { IfOk result (λ it. it.filter ≡ filter.now) }
        ensures binary { IfOk result (λ it. it.binary ≡ binary_of binary.entry) }
    {
        see_leaves(filter.leaves());
        let asked = asked_of(alloc, filter.leaves(), &binary)?;
        let mut values = Vec::new(alloc);
        values_on_binary(asked.as_slice(), EITHER, &mut values)?;
        let questions = filter.formula().questions(alloc, values.as_slice())?;
        Ok(Part {
            filter,
            binary,
            asked,
            questions,
            values,
            waiting: Vec::new(alloc),
        })
    }

    // What the filter is on the binary, where the default filter may have these values.
    pub(crate) fn on_binary(&mut self, default: Values) -> Result<Option<bool>, AllocError>
        requires some { IsSome default }
        ensures value { IfOk result (IsValue (Gives (MayBe self.old.binary Either Either
            (values_may default)) (filter_of self.old.filter))) }
        ensures same { self.new ≡ self.old }
    {
        values_on_binary(self.asked.as_slice(), default, &mut self.values)?;
        self.filter
            .formula()
            .value(self.values.as_slice(), &mut self.waiting)
    }

    // What the filter is on each of the binary's tests whose groups nobody knows, whatever the
    // default filter is, where the binary tells it.
    fn known(&self) -> Option<bool>
        ensures { IfSome result (λ value. (name : List ℕ) (default : Bool) → IsValue
            (Gives (IsLeafValue self.now.binary name (λ m. ⊥) default)
            (filter_of self.now.filter)) (Some value)) }
    {
        match self.questions.first {
            Next::Value(value) => Some(value),
            Next::Question(_) => None,
        }
    }

    // Whether the filter holds on a test of the binary, where the default filter is `default`.
    pub(crate) fn on_test<G: GroupLookup>(
        &mut self,
        test: &TestQuery<'_>,
        default: bool,
        groups: &G,
    ) -> Result<bool, AllocError>
        ensures value { IfOk result
            (λ value. IsValue (Gives (IsLeafValue self.old.binary (test_of test.now).name (G.member
            groups.now (test_of test.now)) default) (filter_of self.old.filter)) (Some value)) }
        ensures same { self.new ≡ self.old }
    {
        values_on_test(
            self.asked.as_mut_slice(),
            test,
            default,
            groups,
            &mut self.values,
        )?;
        let value = self
            .filter
            .formula()
            .value(self.values.as_slice(), &mut self.waiting)?;
        Ok(one_value(value))
    }

    // Whether the filter holds on a test of the binary that has this name and whose groups nobody
    // knows, where the default filter is `default`.
    pub(crate) fn on_name(&mut self, name: &str, default: bool) -> Result<bool, AllocError>
        ensures value { IfOk result (λ value. IsValue
            (Gives (IsLeafValue self.old.binary name.now (λ m. ⊥) default)
            (filter_of self.old.filter)) (Some value)) }
        ensures same { self.new ≡ self.old }
    {
        answer(&self.questions, self.asked.as_mut_slice(), name, default)
    }

    // The same for each of some tests, by their names and in their order, where the default filter
    // holds nowhere.
    pub(crate) fn on_names(
        &mut self,
        alloc: Global,
        names: &[&str],
    ) -> Result<Vec<bool>, AllocError>
        ensures values { IfOk result (λ values. AllZip (λ name value. IsValue
            (Gives (IsLeafValue self.old.binary name.now (λ m. ⊥) false)
            (filter_of self.old.filter)) (Some value)) names.now values.items) }
        ensures same { self.new ≡ self.old }
    {
        // What the binary tells is the same on each test.
        if let Some(value) = self.known() {
            return vec![in alloc; value; names.len()];
        }
        answers(alloc, &self.questions, self.asked.as_mut_slice(), names)
    }
}

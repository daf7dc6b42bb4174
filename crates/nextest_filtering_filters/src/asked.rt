// What a predicate is on a binary, and who is asked of the binary's tests.
ghost use Rattle.std.specs.Prelude.{◌≡◌, ℕ, Bool, false, List, IfOk, IfSome};
ghost use Rattle.std.specs.List.{AllZip};
ghost use Rattle.nextest_filtering_ast.specs.Meaning.{Compares};
ghost use Rattle.nextest_filtering_ast.specs.Tree.{contains};
ghost use Rattle.nextest_filtering_filters.specs.Filter.{leaf_at};
ghost use Rattle.nextest_filtering_filters.specs.Formula.{AreValues};
ghost use Rattle.nextest_filtering_filters.specs.Values.{IsSome, may_by};
ghost use Rattle.nextest_filtering_filters.specs.Asking.{AreAnswers, IsAnswer, IsDecided, IsFor, IsLeafValue, values_may};
ghost use Rattle.nextest_filtering_filters.specs.Meaning.{Either, MayBe, Tells};
ghost use Rattle.nextest_filtering_filters.specs.Query.{Binary, binary_of, test_of};
ghost use Rattle.nextest_filtering_filters.specs.Questions.{comes_to, decided};
ghost use Rattle.nextest_filtering_filters.specs.declared.leaf.FiltersetLeaf.{FiltersetLeaf};

use crate::group_lookup::GroupLookup;
use crate::leaf::FiltersetLeaf;
use crate::query::{BinaryQuery, TestQuery};
use crate::questions::{Decision, Next, Questions};
use crate::values::Values;
use nextest_filtering_ast::{NameMatcher, NameMatching};
use std::alloc::{AllocError, Global};

// What a predicate is on a binary, or what it asks of each test.
#[derive(Drop)]
pub(crate) enum Asked<'f> {
    // It is so, or isn't, whatever the test.
    Known(bool),
    // Whether the test's name is matched.
    Name(NameMatching<'f>),
    // Whether the test's group has a name that is matched.
    Group(&'f NameMatcher),
    // Whether the default filter holds.
    Default,
}

impl<'f> Asked<'f> {
    // What a predicate is on a binary, or asks of its tests.
    pub(crate) fn new(
        alloc: Global,
        leaf: &'f FiltersetLeaf,
        binary: &BinaryQuery<'_>,
    ) -> Result<Asked<'f>, AllocError>
        ensures { IfOk result (IsFor (binary_of binary.now) leaf.now) }
    {
        match leaf {
            FiltersetLeaf::Packages(set) => Ok(Asked::Known(set.contains(binary.package_id))),
            FiltersetLeaf::Kind(matcher, _) => {
                Ok(Asked::Known(matcher.is_match(alloc, binary.kind)?))
            }
            FiltersetLeaf::Platform(platform, _) => Ok(Asked::Known(*platform == binary.platform)),
            FiltersetLeaf::Binary(matcher, _) => {
                Ok(Asked::Known(matcher.is_match(alloc, binary.binary_name)?))
            }
            FiltersetLeaf::BinaryId(matcher, _) => {
                Ok(Asked::Known(matcher.is_match(alloc, binary.binary_id)?))
            }
            FiltersetLeaf::Test(matcher, _) => Ok(Asked::Name(matcher.matching(alloc)?)),
            FiltersetLeaf::Group(matcher, _) => Ok(Asked::Group(matcher)),
            FiltersetLeaf::Default => Ok(Asked::Default),
            FiltersetLeaf::All => Ok(Asked::Known(true)),
            FiltersetLeaf::None => Ok(Asked::Known(false)),
        }
    }

    // The values that the predicate may have on the binary, where the default filter may have
    // these.
    pub(crate) fn on_binary(&self, default: Values) -> Values
        requires some { IsSome default }
        ensures values { (binary : Binary) (leaf : FiltersetLeaf) → IsFor binary leaf self.now
            → AreValues (MayBe binary Either Either (values_may default) leaf) result }
        ensures some { IsSome result }
    {
        match self {
            Asked::Known(value) => Values {
                may_hold: *value,
                may_fail: !*value,
            },
            Asked::Name(_) | Asked::Group(_) => Values {
                may_hold: true,
                may_fail: true,
            },
            Asked::Default => default,
        }
    }

    // Whether the predicate is so on a test, where the default filter is `default`.
    pub(crate) fn on_test<G: GroupLookup>(
        &mut self,
        test: &TestQuery<'_>,
        default: bool,
        groups: &G,
    ) -> Result<bool, AllocError>
        ensures value { IfOk result (λ value. (binary : Binary) (leaf : FiltersetLeaf)
            → IsFor binary leaf self.old → IsLeafValue binary (test_of test.now).name
            (G.member groups.now (test_of test.now)) default leaf value) }
        ensures stays { (binary : Binary) (leaf : FiltersetLeaf) → IsFor binary leaf self.old
            → IsFor binary leaf self.new }
    {
        match self {
            Asked::Known(value) => Ok(*value),
            Asked::Name(matching) => matching.is_match(test.test_name),
            Asked::Group(matcher) => groups.is_member_test(test, matcher),
            Asked::Default => Ok(default),
        }
    }

    // Whether the predicate is so on a test of this name, whose groups nobody knows, where the
    // default filter is `default`.
    fn on_name(&mut self, name: &str, default: bool) -> Result<bool, AllocError>
        ensures value { IfOk result (λ value. (binary : Binary) (leaf : FiltersetLeaf)
            → IsFor binary leaf self.old
            → IsLeafValue binary name.now (λ m. ⊥) default leaf value) }
        ensures stays { (binary : Binary) (leaf : FiltersetLeaf) → IsFor binary leaf self.old
            → IsFor binary leaf self.new }
    {
        match self {
            Asked::Known(value) => Ok(*value),
            Asked::Name(matching) => matching.is_match(name),
            Asked::Group(_) => Ok(false),
            Asked::Default => Ok(default),
        }
    }

    // The text that a test's name has to contain, where nothing else is asked.
    fn contained(&self) -> Option<&'f str>
        ensures { IfSome result (λ text. (binary : Binary) (leaf : FiltersetLeaf) (name : List ℕ)
            (answer : Bool) → IsFor binary leaf self.now
            → IsLeafValue binary name (λ m. ⊥) false leaf answer
            → Tells (Compares contains text.now name) answer) }
    {
        match self {
            Asked::Name(NameMatching::Contains(text)) => Some(*text),
            _ => None,
        }
    }
}

// Whether the predicate of a number is so on a test of this name, whose groups nobody knows.
fn on_name(
    asked: &mut [Asked<'_>],
    leaf: usize,
    name: &str,
    default: bool,
) -> Result<bool, AllocError>
    ensures value { IfOk result (λ value. (binary : Binary) (leaves : List FiltersetLeaf)
        → AllZip (IsFor binary) leaves asked.old
        → IsLeafValue binary name.now (λ m. ⊥) default (leaf_at leaves leaf) value) }
    ensures stays { (binary : Binary) (leaves : List FiltersetLeaf)
        → AllZip (IsFor binary) leaves asked.old → AllZip (IsFor binary) leaves asked.new }
{
    if leaf < asked.len() {
        asked[leaf].on_name(name, default)
    } else {
        Ok(false)
    }
}

// What a formula that is asked question by question comes to on a test of this name, whose groups
// nobody knows, where the default filter is `default`.
pub(crate) fn answer(
    questions: &Questions,
    asked: &mut [Asked<'_>],
    name: &str,
    default: bool,
) -> Result<bool, AllocError>
    ensures value { IfOk result
        (λ value. (binary : Binary) (leaves : List FiltersetLeaf) (answer : ℕ → Bool)
        → AllZip (IsFor binary) leaves asked.old
        → AreAnswers binary name.now default leaves answer
        → value ≡ comes_to answer questions.now) }
    ensures stays { (binary : Binary) (leaves : List FiltersetLeaf)
        → AllZip (IsFor binary) leaves asked.old → AllZip (IsFor binary) leaves asked.new }
{
    let mut list = questions.list.as_slice();
    let mut next = questions.first;
    loop {
        let place = match next {
            Next::Value(value) => return Ok(value),
            Next::Question(place) => place,
        };
        let Some(question) = list.get(place) else {
            return Ok(false);
        };
        let answer = on_name(asked, question.leaf, name, default)?;
        next = question.exits.of(answer);
        list = &list[..place];
    }
}

// What a formula comes to on tests of these names, where it decides whether they contain a text.
fn contained_answers(
    alloc: Global,
    decision: Decision,
    text: &str,
    names: &[&str],
) -> Result<Vec<bool>, AllocError>
    ensures { IfOk result (λ values. AllZip (λ name value. (answer : Bool)
        → Tells (Compares contains text.now name.now) answer
        → value ≡ decided decision answer) names.now values.items) }
{
    let mut values = Vec::with_capacity(alloc, names.len())?;
    for name in names {
        values.push(decision.of(name.contains(text)))?;
    }
    Ok(values)
}

// What a formula comes to on tests of these names, whose groups nobody knows, where the answer of
// one predicate decides it and the default filter holds nowhere.
fn asked_answers(
    alloc: Global,
    decision: Decision,
    asked: &mut Asked<'_>,
    names: &[&str],
) -> Result<Vec<bool>, AllocError>
    ensures values { IfOk result (λ values. AllZip
        (λ name value. IsDecided asked.old decision name.now value) names.now values.items) }
    ensures stays { (binary : Binary) (leaf : FiltersetLeaf) → IsFor binary leaf asked.old
        → IsFor binary leaf asked.new }
{
    let mut values = Vec::with_capacity(alloc, names.len())?;
    for name in names {
        values.push(decision.of(asked.on_name(name, false)?))?;
    }
    Ok(values)
}

// The same. Mostly a name just has to contain a text.
fn decided_answers(
    alloc: Global,
    decision: Decision,
    asked: &mut Asked<'_>,
    names: &[&str],
) -> Result<Vec<bool>, AllocError>
    ensures values { IfOk result (λ values. AllZip
        (λ name value. IsDecided asked.old decision name.now value) names.now values.items) }
    ensures stays { (binary : Binary) (leaf : FiltersetLeaf) → IsFor binary leaf asked.old
        → IsFor binary leaf asked.new }
{
    match asked.contained() {
        Some(text) => contained_answers(alloc, decision, text, names),
        None => asked_answers(alloc, decision, asked, names),
    }
}

// What a formula that is asked question by question comes to on tests of these names, whose groups
// nobody knows, where the default filter holds nowhere.
fn each_answer(
    alloc: Global,
    questions: &Questions,
    asked: &mut [Asked<'_>],
    names: &[&str],
) -> Result<Vec<bool>, AllocError>
    ensures values { IfOk result (λ values. AllZip
        (λ name value. IsAnswer asked.old questions.now false name.now value)
        names.now values.items) }
    ensures stays { (binary : Binary) (leaves : List FiltersetLeaf)
        → AllZip (IsFor binary) leaves asked.old → AllZip (IsFor binary) leaves asked.new }
{
    let mut values = Vec::with_capacity(alloc, names.len())?;
    for name in names {
        values.push(answer(questions, asked, name, false)?)?;
    }
    Ok(values)
}

// The same. Mostly one question is left, and then each name is just compared.
pub(crate) fn answers(
    alloc: Global,
    questions: &Questions,
    asked: &mut [Asked<'_>],
    names: &[&str],
) -> Result<Vec<bool>, AllocError>
    ensures values { IfOk result (λ values. AllZip
        (λ name value. IsAnswer asked.old questions.now false name.now value)
        names.now values.items) }
    ensures stays { (binary : Binary) (leaves : List FiltersetLeaf)
        → AllZip (IsFor binary) leaves asked.old → AllZip (IsFor binary) leaves asked.new }
{
    match questions.decision() {
        Some(decision) if decision.leaf < asked.len() => {
            decided_answers(alloc, decision, &mut asked[decision.leaf], names)
        }
        _ => each_answer(alloc, questions, asked, names),
    }
}

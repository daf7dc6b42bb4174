// The places of tests by their names.
ghost use Rattle.std.specs.Prelude.{◌≡◌, false, IfOk, map, slice_get};
ghost use Rattle.std.specs.Option.{option_map_or};
ghost use Rattle.test_runner_core_session.specs.Names.{IsIndex, is_named, name_of, names, place_among_tests, place_of};

use indexmap::IndexSet;
use nextest_run_events_results::TestInstanceId;
use std::alloc::{AllocError, Global};
use std::marker::Model;
use std::rc::Rc;
use test_runner_core_plan::{KeyedState, PlanTest, TextsDigest};

// The names of tests, lent, in the order of the tests; of a name that several have, the first.
type Names<'a> = IndexSet<TestInstanceId<'a>, KeyedState>;

// The places of tests by their names. In a clause it is the tests' names by their places.
#[derive(Drop)]
pub(crate) struct Places<'a> {
    tests: &'a [PlanTest],
    // Their names, once they were put in, in memory that copies share.
    index: Option<Rc<Names<'a>>>,
    // The place that was found last, where the next look-up begins.
    last: usize,
    // Whether it was that of the look-up before or the next.
    in_turn: bool,
    alloc: Global,
}

impl<'a> Model for Places<'a> {
    ghost use Rattle.std.specs.Prelude.{List, map};
    ghost use Rattle.std.specs.Option.{option_map};
    ghost use Rattle.std.specs.Rc.{rc_value};
    ghost use Rattle.nextest_run_events_results.specs.declared.instance.OwnedTestInstanceId.{OwnedTestInstanceId};
    ghost use Rattle.test_runner_core_session.specs.Names.{IsIndexIfMade, names};

    ghost Value = { List OwnedTestInstanceId };

    ghost view = { λ p. map (λ test. test.instance) p.tests.now };

    ghost invariant = { λ p. IsIndexIfMade (option_map rc_value p.index) (names p.tests.now) };
}

impl<'a> Clone for Places<'a> {
    ghost use Rattle.std.specs.Prelude.{◌≡◌};

    ghost is_clone = { λ original copy. copy ≡ original };

    // The index is shared.
    fn clone(&self) -> Result<Places<'a>, AllocError> {
        Ok(Places {
            index: self.index.clone()?,
            ..*self
        })
    }
}

impl<'a> Places<'a> {
    // The places of these tests, whose index isn't made yet. Takes no memory.
    pub(crate) fn new(alloc: Global, tests: &'a [PlanTest]) -> Places<'a>
        ensures { result ≡ map (λ test. test.instance) tests.now }
    {
        Places {
            tests,
            index: None,
            last: 0,
            in_turn: true,
            alloc,
        }
    }

    // Makes the index of the tests by name, where that isn't done yet, so that no look-up takes
    // time in proportion to the tests, unless some have one name. It fails only on allocation, and
    // leaves everything as it was.
    pub(crate) fn make_index(&mut self) -> Result<(), AllocError>
        ensures { self.new ≡ self.old }
    {
        if self.index.is_none() {
            self.index = Some(shared_names_of(self.alloc, self.tests)?);
        }
        Ok(())
    }

    // The place of the first test of this name, or one past the end where there is none: mostly it
    // is that of the look-up before, or the next while tests come in turn.
    pub(crate) fn place(&self, test: TestInstanceId<'_>) -> usize
        ensures { result ≡ place_of self.now test.entry.binary_id.now test.entry.test_name.now }
    {
        let Some(index) = &self.index else {
            return first_place(self.tests, test);
        };
        if index.len() < self.tests.len() {
            return first_place(self.tests, test);
        }
        if is_at(self.tests, self.last, test) {
            return self.last;
        }
        if self.in_turn {
            let next = self.last.saturating_add(1);
            if is_at(self.tests, next, test) {
                return next;
            }
        }
        place_among(index, self.tests, test)
    }

    // The same, from which the next look-up begins.
    pub(crate) fn find(&mut self, test: TestInstanceId<'_>) -> usize
        ensures place { result
            ≡ place_of self.old test.entry.binary_id.now test.entry.test_name.now }
        ensures same { self.new ≡ self.old }
    {
        let place = self.place(test);
        if place != self.last {
            self.in_turn = place == self.last.saturating_add(1);
            self.last = place;
        }
        place
    }
}

// The names of tests, lent, in memory that copies share.
fn shared_names_of<'a>(alloc: Global, tests: &'a [PlanTest]) -> Result<Rc<Names<'a>>, AllocError>
    ensures { IfOk result (λ it. IsIndex it.value.keys (names tests.now)) }
{
    let names = names_of(alloc, tests)?;
    Ok(Rc::new(alloc, names)?)
}

// The names of tests, lent.
fn names_of<'a>(alloc: Global, tests: &'a [PlanTest]) -> Result<Names<'a>, AllocError>
    ensures { IfOk result (λ it. IsIndex it.keys (names tests.now)) }
{
    let mut names = IndexSet::with_capacity_and_hasher(alloc, tests.len(), state_of(tests))?;
    for test in tests {
        names.insert(test.instance.as_ref())?;
    }
    Ok(names)
}

// Hashes the names of these tests by a digest of all of them, so that nobody can choose names that
// collide.
fn state_of(tests: &[PlanTest]) -> KeyedState {
    let mut digest = TextsDigest::new();
    for test in tests {
        digest.add(test.instance.binary_id.as_str());
        digest.add(test.instance.test_name.as_str());
    }
    digest.into_state()
}

// The place of the first test of this name, or one past the end, where one after another is looked
// at.
fn first_place(tests: &[PlanTest], test: TestInstanceId<'_>) -> usize
    ensures { result ≡ place_among_tests tests.now test.entry }
{
    for place in 0..tests.len() {
        if is_at(tests, place, test) {
            return place;
        }
    }
    tests.len()
}

// The place of the test of this name by the index of all, or one past the end.
fn place_among(index: &Names<'_>, tests: &[PlanTest], test: TestInstanceId<'_>) -> usize
    requires { map name_of index.now.keys ≡ names tests.now }
    ensures { result ≡ place_among_tests tests.now test.entry }
{
    match index.get_index_of(&test) {
        Some(place) => place,
        None => tests.len(),
    }
}

// Whether the test of this name stands at a place.
fn is_at(tests: &[PlanTest], place: usize, test: TestInstanceId<'_>) -> bool
    ensures { result ≡ option_map_or (λ planned. is_named test.entry.binary_id.now
        test.entry.test_name.now planned.instance) (slice_get tests.now place) false }
{
    match tests.get(place) {
        Some(planned) => test == planned.instance.as_ref(),
        None => false,
    }
}

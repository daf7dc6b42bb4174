// The states of the tests of a run, which are made when the first of them starts, or before.
ghost use Rattle.std.specs.Prelude.{◌≡◌, ◌^◌, ◌<◌, map, length, slice_get};
ghost use Rattle.std.specs.Prelude.{Some, IfOk, OnOk, OnErr};
ghost use Rattle.std.specs.Option.{option_map};
ghost use Rattle.nextest_run_events_counters.specs.Counting.{CanCountTest};
ghost use Rattle.test_runner_core_run_model.specs.State.{TestState, State, waiting};
ghost use Rattle.test_runner_core_run_model.specs.Step.{after_attempt, finished_by, finishes};
ghost use Rattle.test_runner_core_run_model.specs.declared.mark.Mark.TheVariants as marks;
ghost use Rattle.test_runner_core_run_state.specs.Counted.{with_finished, with_tests_counted, CountsNoTest};
ghost use Rattle.test_runner_core_run_state.specs.Parts.{HasAttempts, IsStartable, IsRunningAt, ChangesAt, states_of};
ghost use Rattle.test_runner_core_run_state.specs.Records.{tests_with, unwritten_at};

use crate::keep_attempts::KeepAttempts;
use crate::kept_records::KeptRecords;
use crate::test_progress::TestProgress;
use nextest_run_events_counters::RunStats;
use nextest_run_events_results::CancelReason;
use std::alloc::{AllocError, Global};
use std::marker::Model;
use test_runner_core_run_model::{Mark, RunTest};

// The states of the tests of a run. They are made when they are asked for, or when the first test
// starts: who just plans a run needs none of them. In a clause they are the states, by the tests'
// places.
pub(crate) struct TestStates<A: KeepAttempts> {
    // What is planned of the tests, until their states are made.
    planned: Vec<RunTest>,
    // The tests, from then on.
    tests: Vec<TestProgress<A>>,
    // What is kept of a test until then.
    unstarted: A,
}

// One call drops it, whoever holds it.
impl<A: KeepAttempts> Drop for TestStates<A> {
    fn drop(self) {
        let Self {
            planned: _,
            tests: _,
            unstarted: _,
        } = self;
    }
}

impl<A: KeepAttempts> Model for TestStates<A> {
    ghost use Rattle.std.specs.Prelude.{List};
    ghost use Rattle.test_runner_core_run_model.specs.State.{TestState};
    ghost use Rattle.test_runner_core_run_state.specs.Parts.{HasNoAttempts, states_of};

    ghost Value = { List TestState };

    ghost view = { λ s. states_of s.planned.items s.tests.items };

    ghost invariant = { λ s. HasNoAttempts A.are_of A.records s.unstarted };
}

impl<A: KeepAttempts> TestStates<A> {
    // Those of tests of which no attempt started.
    pub(crate) fn new(alloc: Global, planned: Vec<RunTest>) -> TestStates<A>
        ensures { result ≡ map waiting planned.items }
    {
        TestStates {
            planned,
            tests: Vec::new(alloc),
            unstarted: A::new(),
        }
    }

    // A copy of them.
    pub(crate) fn copy(&self, alloc: Global) -> Result<TestStates<A>, AllocError>
        ensures { IfOk result (λ copy. copy ≡ self.now) }
    {
        Ok(TestStates {
            planned: self.planned.clone()?,
            tests: copies(alloc, self.tests.as_slice())?,
            unstarted: A::new(),
        })
    }

    // How many they are.
    pub(crate) fn len(&self) -> usize
        ensures count { result ≡ length self.now }
        ensures bound { result < 2 ^ 63 }
    {
        if self.tests.is_empty() {
            self.planned.len()
        } else {
            self.tests.len()
        }
    }

    // What is planned of the test at a place.
    pub(crate) fn planned(&self, place: usize) -> Option<RunTest>
        ensures { result ≡ option_map (λ test. test.plan) (slice_get self.now place) }
    {
        if self.tests.is_empty() {
            return planned_at(self.planned.as_slice(), place);
        }
        let test = self.tests.as_slice().get(place)?;
        Some(test.planned())
    }

    // How far the test at a place is.
    pub(crate) fn mark(&self, place: usize) -> Option<Mark>
        ensures { result ≡ option_map (λ test. test.mark) (slice_get self.now place) }
    {
        if self.tests.is_empty() {
            let _planned = planned_at(self.planned.as_slice(), place)?;
            return Some(Mark::Waiting);
        }
        mark_at(self.tests.as_slice(), place)
    }

    // What is kept of the ended attempts of the test at a place; `None` where there is no test.
    pub(crate) fn attempts(&self, place: usize) -> Option<&A>
        ensures { HasAttempts A.are_of A.records (slice_get self.now place) result }
    {
        if self.tests.is_empty() {
            let _planned = planned_at(self.planned.as_slice(), place)?;
            return Some(&self.unstarted);
        }
        let test = self.tests.as_slice().get(place)?;
        Some(test.attempts())
    }

    // Makes the states, where that isn't done. An `Err` changes nothing.
    pub(crate) fn make(&mut self, alloc: Global) -> Result<(), AllocError>
        ensures { self.new ≡ self.old }
    {
        begin(alloc, &mut self.planned, &mut self.tests)
    }

    // An attempt of the test at a place starts. An `Err` changes nothing.
    pub(crate) fn start(&mut self, alloc: Global, place: usize) -> Result<(), AllocError>
        requires { IsStartable self.old place }
        ensures ok { OnOk result
            (ChangesAt place (λ test. record test { mark = marks.Running }) self.old self.new) }
        ensures err { OnErr result (self.new ≡ self.old) }
    {
        begin(alloc, &mut self.planned, &mut self.tests)?;
        start_at(&mut self.tests, alloc, place)
    }

    // The attempt of the test at a place that runs ends in a run with this reason: whether that
    // finishes the test.
    pub(crate) fn end(
        &mut self,
        alloc: Global,
        place: usize,
        ending: A::Ending,
        reason: Option<CancelReason>,
    ) -> bool
        requires { IsRunningAt self.old place }
        ensures after { (state : State) → state.reason ≡ reason → ChangesAt place
            (λ test. after_attempt state test (A.record_of ending)) self.old self.new }
        ensures finished { (state : State) (test : TestState) → state.reason ≡ reason
            → slice_get self.old place ≡ Some test
            → result ≡ finishes state test (A.record_of ending) }
        ensures bound { length self.old < 2 ^ 63 }
    {
        end_at(&mut self.tests, alloc, place, ending, reason)
    }

    // Counts the test at a place, where it is finished.
    pub(crate) fn count_at(&self, place: usize, stats: &mut RunStats)
        requires place { place < length self.now }
        requires below_maximum { CanCountTest stats.old }
        ensures { (test : TestState) → slice_get self.now place ≡ Some test
            → stats.new ≡ with_finished test stats.old }
    {
        if self.tests.is_empty() {
            return;
        }
        self.tests[place].count_in(stats);
    }

    // Counts all tests that are finished.
    pub(crate) fn count_all(&self, stats: &mut RunStats)
        requires uncounted { CountsNoTest stats.old }
        ensures { stats.new ≡ with_tests_counted self.now stats.old }
    {
        count_each(self.tests.as_slice(), stats);
    }

    // The run is stopped: the tests between two attempts are finished.
    pub(crate) fn stop(&mut self, reason: CancelReason)
        ensures { self.new ≡ map (finished_by reason) self.old }
    {
        finish_between(&mut self.tests, reason);
    }
}

impl TestStates<KeptRecords> {
    // Forgets the outputs of the attempts of the test at a place, if there is such a test.
    pub(crate) fn forget_outputs(&mut self, place: usize)
        ensures { self.new ≡ tests_with (unwritten_at place) self.old }
    {
        forget_at(&mut self.tests, place);
    }
}

// What is planned of the test at a place.
fn planned_at(planned: &[RunTest], place: usize) -> Option<RunTest>
    ensures { result ≡ slice_get planned.now place }
{
    let test = planned.get(place)?;
    Some(*test)
}

// How far the test at a place is.
fn mark_at<A: KeepAttempts>(tests: &[TestProgress<A>], place: usize) -> Option<Mark>
    ensures { result ≡ option_map (λ test. test.mark) (slice_get tests.now place) }
{
    let test = tests.get(place)?;
    Some(test.mark())
}

// Makes the tests of what is planned of them, where that isn't done. An `Err` changes nothing.
fn begin<A: KeepAttempts>(
    alloc: Global,
    planned: &mut Vec<RunTest>,
    tests: &mut Vec<TestProgress<A>>,
) -> Result<(), AllocError>
    ensures made { OnOk result (tests.new.items ≡ states_of planned.old.items tests.old.items) }
    ensures same { states_of planned.new.items tests.new.items
        ≡ states_of planned.old.items tests.old.items }
{
    if tests.is_empty() {
        *tests = waiting_tests(alloc, planned.as_slice())?;
        *planned = Vec::new(alloc);
    }
    Ok(())
}

// The tests of which no attempt started.
fn waiting_tests<A: KeepAttempts>(
    alloc: Global,
    planned: &[RunTest],
) -> Result<Vec<TestProgress<A>>, AllocError>
    ensures { IfOk result (λ tests. tests.items ≡ map waiting (planned.now)) }
{
    let mut tests = Vec::with_capacity(alloc, planned.len())?;
    for plan in planned {
        tests.push(TestProgress::new(*plan))?;
    }
    Ok(tests)
}

// Copies of tests.
fn copies<A: KeepAttempts>(
    alloc: Global,
    tests: &[TestProgress<A>],
) -> Result<Vec<TestProgress<A>>, AllocError>
    ensures { IfOk result (λ copy. copy.items ≡ tests.now) }
{
    let mut copy = Vec::with_capacity(alloc, tests.len())?;
    for test in tests {
        copy.push(test.copy(alloc)?)?;
    }
    Ok(copy)
}

// An attempt of the test at a place starts. An `Err` changes nothing.
fn start_at<A: KeepAttempts>(
    tests: &mut Vec<TestProgress<A>>,
    alloc: Global,
    place: usize,
) -> Result<(), AllocError>
    requires { IsStartable tests.old.items place }
    ensures ok { OnOk result (ChangesAt place
        (λ test. record test { mark = marks.Running }) tests.old.items tests.new.items) }
    ensures err { OnErr result (tests.new.items ≡ tests.old.items) }
{
    let test = &mut tests[place];
    test.start(alloc)
}

// The attempt of the test at a place that runs ends: whether that finishes the test.
fn end_at<A: KeepAttempts>(
    tests: &mut Vec<TestProgress<A>>,
    alloc: Global,
    place: usize,
    ending: A::Ending,
    reason: Option<CancelReason>,
) -> bool
    requires { IsRunningAt tests.old.items place }
    ensures after { (state : State) → state.reason ≡ reason → ChangesAt place
        (λ test. after_attempt state test (A.record_of ending)) tests.old.items tests.new.items }
    ensures finished { (state : State) (test : TestState) → state.reason ≡ reason
        → slice_get tests.old.items place ≡ Some test
        → result ≡ finishes state test (A.record_of ending) }
{
    let test = &mut tests[place];
    test.end(alloc, ending, reason)
}

// Forgets the outputs of the attempts of the test at a place, if there is such a test.
fn forget_at(tests: &mut Vec<TestProgress<KeptRecords>>, place: usize)
    ensures { tests.new.items ≡ tests_with (unwritten_at place) tests.old.items }
{
    if place >= tests.len() {
        return;
    }
    let test = &mut tests[place];
    test.forget_outputs();
}

// The tests between two attempts are finished.
fn finish_between<A: KeepAttempts>(tests: &mut Vec<TestProgress<A>>, reason: CancelReason)
    ensures { tests.new.items ≡ map (finished_by reason) tests.old.items }
{
    finish_each(tests.as_mut_slice(), reason);
}

// Each of the tests that is between two attempts is finished.
fn finish_each<A: KeepAttempts>(tests: &mut [TestProgress<A>], reason: CancelReason)
    ensures { tests.new ≡ map (finished_by reason) tests.old }
{
    for test in tests.iter_mut() {
        test.finish_between(reason);
    }
}

// Counts each of the tests that is finished.
fn count_each<A: KeepAttempts>(tests: &[TestProgress<A>], stats: &mut RunStats)
    requires uncounted { CountsNoTest stats.old }
    requires bound { length tests.now < 2 ^ 63 }
    ensures { stats.new ≡ with_tests_counted tests.now stats.old }
{
    for test in tests {
        test.count_in(stats);
    }
}

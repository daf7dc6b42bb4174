// How far the tests of a run are.
ghost use Rattle.std.specs.Prelude.{◌≡◌, ◌^◌, ◌<◌, not, [], map, length, slice_get};
ghost use Rattle.std.specs.Prelude.{Some, MatchOption, IfOk, OnOk, OnErr};
ghost use Rattle.std.specs.List.{list_all};
ghost use Rattle.std.specs.Option.{option_map, option_map_or};
ghost use Rattle.nextest_run_events_counters.specs.Counting.{CanCountTest};
ghost use Rattle.test_runner_core_run_model.specs.State.{TestState, State, waiting, is_running};
ghost use Rattle.test_runner_core_run_model.specs.Step.{after_attempt, finished_by, finishes};
ghost use Rattle.test_runner_core_run_model.specs.declared.mark.Mark.TheVariants as marks;
ghost use Rattle.test_runner_core_run_state.specs.Counted.{with_finished, with_tests_counted, CountsNoTest};
ghost use Rattle.test_runner_core_run_state.specs.Parts.{HasAttempts, IsStartable, IsRunningAt, ChangesAt};
ghost use Rattle.test_runner_core_run_state.specs.Records.{tests_with, unwritten_at};

use crate::keep_attempts::KeepAttempts;
use crate::kept_records::KeptRecords;
use crate::test_states::TestStates;
use nextest_run_events_counters::RunStats;
use nextest_run_events_results::CancelReason;
use std::alloc::{AllocError, Global};
use std::marker::Model;
use test_runner_core_run_model::{Mark, RunTest};

// How far the tests of a run are, and how many run. In a clause they are the states of the tests,
// by their places.
pub(crate) struct AllTests<A: KeepAttempts> {
    tests: TestStates<A>,
    running: usize,
}

// One call drops it, whoever holds it.
impl<A: KeepAttempts> Drop for AllTests<A> {
    fn drop(self) {
        let Self {
            tests: _,
            running: _,
        } = self;
    }
}

impl<A: KeepAttempts> Model for AllTests<A> {
    ghost use Rattle.std.specs.Prelude.{◌≡◌, List, count_by};
    ghost use Rattle.test_runner_core_run_model.specs.State.{TestState, is_running};

    ghost Value = { List TestState };

    ghost view = { λ a. a.tests };

    ghost invariant = { λ a. a.running ≡ count_by is_running a.tests };
}

impl<A: KeepAttempts> AllTests<A> {
    // The tests of which no attempt started.
    pub(crate) fn new(alloc: Global, planned: Vec<RunTest>) -> AllTests<A>
        ensures { result ≡ map waiting planned.items }
    {
        AllTests {
            tests: TestStates::new(alloc, planned),
            running: 0,
        }
    }

    // A copy of them.
    pub(crate) fn copy(&self, alloc: Global) -> Result<AllTests<A>, AllocError>
        ensures { IfOk result (λ copy. copy ≡ self.now) }
    {
        Ok(AllTests {
            tests: self.tests.copy(alloc)?,
            running: self.running,
        })
    }

    // How many they are.
    pub(crate) fn len(&self) -> usize
        ensures count { result ≡ length self.now }
        ensures bound { result < 2 ^ 63 }
    {
        self.tests.len()
    }

    // Whether none runs.
    pub(crate) fn none_runs(&self) -> bool
        ensures { result ≡ list_all (λ test. not (is_running test)) self.now }
    {
        self.running == 0
    }

    // What is planned of the test at a place.
    pub(crate) fn planned(&self, place: usize) -> Option<RunTest>
        ensures { result ≡ option_map (λ test. test.plan) (slice_get self.now place) }
    {
        self.tests.planned(place)
    }

    // How far the test at a place is.
    pub(crate) fn mark(&self, place: usize) -> Option<Mark>
        ensures { result ≡ option_map (λ test. test.mark) (slice_get self.now place) }
    {
        self.tests.mark(place)
    }

    // What is kept of the ended attempts of the test at a place; `None` where there is no test.
    pub(crate) fn attempts(&self, place: usize) -> Option<&A>
        ensures { HasAttempts A.are_of A.records (slice_get self.now place) result }
    {
        self.tests.attempts(place)
    }

    // Makes their states, where that isn't done. An `Err` changes nothing.
    pub(crate) fn make(&mut self, alloc: Global) -> Result<(), AllocError>
        ensures { self.new ≡ self.old }
    {
        self.tests.make(alloc)
    }

    // An attempt of the test at a place starts. An `Err` changes nothing.
    pub(crate) fn start(&mut self, alloc: Global, place: usize) -> Result<(), AllocError>
        requires { IsStartable self.old place }
        ensures ok { OnOk result
            (ChangesAt place (λ test. record test { mark = marks.Running }) self.old self.new) }
        ensures err { OnErr result (self.new ≡ self.old) }
    {
        // They are so many that one more fits.
        let _count = self.tests.len();
        self.tests.start(alloc, place)?;
        self.running += 1;
        Ok(())
    }

    // The attempt of the test at a place that runs ends in a run with this reason: whether that
    // finishes the test.
    pub(crate) fn end(
        &mut self,
        alloc: Global,
        place: usize,
        ending: A::Ending,
        reason: Option<CancelReason>,
    ) -> bool
        requires { IsRunningAt self.old place }
        ensures after { (state : State) → state.reason ≡ reason
            → ChangesAt place
            (λ test. after_attempt state test (A.record_of ending)) self.old self.new }
        ensures finished { (state : State) (test : TestState) → state.reason ≡ reason
            → slice_get self.old place ≡ Some test
            → result ≡ finishes state test (A.record_of ending) }
        ensures bound { length self.old < 2 ^ 63 }
    {
        let finished = self.tests.end(alloc, place, ending, reason);
        self.running -= 1;
        finished
    }

    // Counts the test at a place, where it is finished.
    pub(crate) fn count_at(&self, place: usize, stats: &mut RunStats)
        requires place { place < length self.now }
        requires below_maximum { CanCountTest stats.old }
        ensures { (test : TestState) → slice_get self.now place ≡ Some test
            → stats.new ≡ with_finished test stats.old }
    {
        self.tests.count_at(place, stats);
    }

    // Counts all tests that are finished.
    pub(crate) fn count_all(&self, stats: &mut RunStats)
        requires uncounted { CountsNoTest stats.old }
        ensures { stats.new ≡ with_tests_counted self.now stats.old }
    {
        self.tests.count_all(stats);
    }

    // The run is stopped: the tests between two attempts are finished.
    pub(crate) fn stop(&mut self, reason: CancelReason)
        ensures { self.new ≡ map (finished_by reason) self.old }
    {
        self.tests.stop(reason);
    }
}

impl AllTests<KeptRecords> {
    // Forgets the outputs of the attempts of the test at a place, if there is such a test.
    pub(crate) fn forget_outputs(&mut self, place: usize)
        ensures { self.new ≡ tests_with (unwritten_at place) self.old }
    {
        self.tests.forget_outputs(place);
    }
}

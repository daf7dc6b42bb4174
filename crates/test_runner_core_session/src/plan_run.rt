// A run of a plan.
ghost use Rattle.std.specs.Prelude.{◌≡◌, IfOk, is_some, map, slice_get};
ghost use Rattle.test_runner_core_run_state.specs.Progress.{Takes, Starts};
ghost use Rattle.test_runner_core_run_state.specs.Statuses.{IsScriptStatus};
ghost use Rattle.test_runner_core_run_model.specs.Counters as counters;
ghost use Rattle.test_runner_core_run_model.specs.FailLimit.{StopsAtLimit};
ghost use Rattle.test_runner_core_run_model.specs.Runs as runs;
ghost use Rattle.test_runner_core_run_model.specs.declared.event.Event.TheVariants as events;
ghost use Rattle.test_runner_core_session.specs.Names.{script_place};
ghost use Rattle.test_runner_core_session.specs.Session.{place_in, session_of, run_test, IsKeptTest};

use crate::places::Places;
use nextest_run_events_counters::{FinalRunStats, RunStats};
use nextest_run_events_outputs::{LiveSpec, SetupScriptExecuteStatus};
use nextest_run_events_results::{CancelReason, Record, TestInstanceId};
use nextest_text::Text;
use std::alloc::{AllocError, Global};
use std::marker::Model;
use test_runner_core_plan::{Plan, PlanTest};
use test_runner_core_run_model::{Finished, Mark, RunTest, StepRefusal};
use test_runner_core_run_state::{KeepAttempts, Progress, StartFault};

/// How far a test is, what is planned of it, and what is kept of its ended attempts.
#[derive(Drop)]
pub struct KeptTest<'s, A> {
    /// Whether it waits, runs, is between two attempts or is finished.
    pub mark: Mark,
    /// How many attempts it has at most, its flaky rule and its weight.
    pub plan: RunTest,
    /// What is kept of its ended attempts.
    pub attempts: &'s A,
}

/// A run of a plan, which is lent, whose tests' ended attempts are kept as `A` keeps them. In a
/// clause it is the plan, and the state of the run.
pub struct PlanRun<'a, A: KeepAttempts> {
    plan: &'a Plan,
    places: Places<'a>,
    pub(crate) progress: Progress<A>,
}

// One call drops it, whoever holds it.
impl<A: KeepAttempts> Drop for PlanRun<'_, A> {
    fn drop(self) {
        let Self {
            plan: _,
            places: _,
            progress: _,
        } = self;
    }
}

impl<'a, A: KeepAttempts> Model for PlanRun<'a, A> {
    ghost use Rattle.std.specs.Prelude.{◌≡◌};
    ghost use Rattle.test_runner_core_session.specs.Session.{SessionState, names_of};

    ghost Value = { SessionState };

    ghost view = { λ s. record { plan = s.plan.now; run = s.progress } };

    ghost invariant = { λ s. s.places ≡ names_of s.plan.now };
}

impl<'a, A: KeepAttempts> Clone for PlanRun<'a, A> {
    ghost use Rattle.std.specs.Prelude.{◌≡◌};

    ghost is_clone = { λ original copy. copy ≡ original };

    /// A run as far as this one, of the same plan, which goes on by itself. The index of the tests
    /// by name is shared. It fails only on allocation.
    fn clone(&self) -> Result<PlanRun<'a, A>, AllocError> {
        Ok(PlanRun {
            plan: self.plan,
            places: self.places.clone()?,
            progress: self.progress.clone()?,
        })
    }
}

impl<'a, A: KeepAttempts> PlanRun<'a, A> {
    /// The run in which nothing ended. Makes the room for each script's status and each test's
    /// state, and the index of the tests by name. It fails only on allocation.
    pub fn new(alloc: Global, plan: &'a Plan) -> Result<PlanRun<'a, A>, AllocError>
        ensures { IfOk result (λ session. session ≡ session_of plan.now) }
    {
        let mut run = PlanRun::unprepared(alloc, plan)?;
        run.prepare()?;
        Ok(run)
    }

    /// The same, without the tests' states and their index yet: until `prepare` makes them, a
    /// look-up takes time in proportion to the tests, and a start the memory of all states. It
    /// fails only on allocation.
    pub fn unprepared(alloc: Global, plan: &'a Plan) -> Result<PlanRun<'a, A>, AllocError>
        ensures { IfOk result (λ session. session ≡ session_of plan.now) }
    {
        let tests = plan.tests.as_slice();
        let planned = planned_tests(alloc, tests)?;
        Ok(PlanRun {
            plan,
            places: Places::new(alloc, tests),
            progress: Progress::new(
                alloc,
                plan.scripts.len(),
                planned,
                plan.limit,
                plan.skipped.len(),
            )?,
        })
    }

    /// Makes the room for each test's state, and the index of the tests by name, where that isn't
    /// done yet. Only time and memory depend on it. It fails only on allocation, and leaves
    /// everything as it was.
    pub fn prepare(&mut self) -> Result<(), AllocError>
        ensures { self.new ≡ self.old }
    {
        self.places.make_index()?;
        self.progress.make_states()
    }

    /// An attempt of a test starts: reserves the room of its end. An `Err` says why it can't start
    /// now, or that there was no memory, and leaves everything as it was.
    pub fn start(&mut self, test: TestInstanceId<'_>) -> Result<(), StartFault>
        ensures plan { self.new.plan ≡ self.old.plan }
        ensures step { Starts self.old.run (place_in self.old.plan test.entry.binary_id.now
            test.entry.test_name.now) result self.new.run }
    {
        let place = self.places.find(test);
        self.progress.start(place)
    }

    /// What the step finished: the attempt of a test that runs ended so. Where that lets the
    /// failing tests weigh as much as the limit, the run is stopped. Takes no memory. An `Err` says
    /// why that can't be, and leaves everything as it was.
    pub fn attempt_finished(
        &mut self,
        test: TestInstanceId<'_>,
        ending: A::Ending,
    ) -> Result<Finished, StepRefusal>
        ensures plan { self.new.plan ≡ self.old.plan }
        ensures step { Takes self.old.run (events.Ended
            (place_in self.old.plan test.entry.binary_id.now test.entry.test_name.now)
            (A.record_of ending)) result self.new.run }
        ensures limit { StopsAtLimit self.old.run self.new.run }
    {
        let place = self.places.find(test);
        self.progress.attempt_finished(place, ending)
    }

    /// What the step finished: a script ended. Takes no memory. An `Err` says why that can't be,
    /// and leaves everything as it was.
    pub fn script_finished(&mut self, id: &str, record: Record) -> Result<Finished, StepRefusal>
        ensures plan { self.new.plan ≡ self.old.plan }
        ensures step { Takes self.old.run (events.ScriptEnded
            (script_place self.old.plan.scripts id.now) «record») result self.new.run }
    {
        let place = place_of_script(self.plan.scripts.as_slice(), id);
        self.progress.script_finished(place, record)
    }

    /// What the step finished: the run was told to stop. Takes no memory. An `Err` says why that
    /// can't be, and leaves everything as it was.
    pub fn stop(&mut self, reason: CancelReason) -> Result<Finished, StepRefusal>
        ensures plan { self.new.plan ≡ self.old.plan }
        ensures step { Takes self.old.run (events.Stopped reason) result self.new.run }
    {
        self.progress.stop(reason)
    }

    /// The plan.
    pub fn plan(&self) -> &'a Plan
        ensures { result.now ≡ self.now.plan }
    {
        self.plan
    }

    /// Whether the run is stopped.
    pub fn is_stopped(&self) -> bool
        ensures { result ≡ is_some self.now.run.reason }
    {
        self.progress.is_stopped()
    }

    /// Whether the run is complete: all scripts and tests finished, or it is stopped and nothing
    /// runs.
    pub fn is_complete(&self) -> bool
        ensures { result ≡ runs.is_complete self.now.run }
    {
        self.progress.is_complete()
    }

    /// The counters so far.
    pub fn stats(&self) -> RunStats
        ensures { result ≡ counters.counters self.now.run }
    {
        self.progress.stats()
    }

    /// What the counters come to so far.
    pub fn summary(&self) -> FinalRunStats
        ensures { result ≡ counters.summary self.now.run }
    {
        self.progress.summary()
    }

    /// The exit status so far.
    pub fn status(&self) -> u8
        ensures { result ≡ counters.status self.now.run }
    {
        self.progress.status()
    }

    /// The place of a test in the plan, or the number of its tests where the plan doesn't have it.
    /// The test of the last event, or the one behind it, is found at once.
    pub fn place(&self, test: TestInstanceId<'_>) -> usize
        ensures { result
            ≡ place_in self.now.plan test.entry.binary_id.now test.entry.test_name.now }
    {
        self.places.place(test)
    }

    /// How far the test at a place is, with what is kept of its ended attempts; `None` where the
    /// plan has no such place.
    pub fn kept_at(&self, place: usize) -> Option<KeptTest<'_, A>>
        ensures { IsKeptTest A.are_of A.records (slice_get self.now.run.tests place) result }
    {
        let mark = self.progress.mark(place)?;
        let plan = self.progress.planned(place)?;
        let attempts = self.progress.attempts(place)?;
        Some(KeptTest {
            mark,
            plan,
            attempts,
        })
    }

    /// The status of the script at a place; `None` where the plan has no such place, or it didn't
    /// end.
    pub fn ended_script(&self, place: usize) -> Option<&SetupScriptExecuteStatus<LiveSpec>>
        ensures { IsScriptStatus (slice_get self.now.run.scripts place) result }
    {
        self.progress.ended_script(place)
    }
}

// The tests as a run sees them.
fn planned_tests(alloc: Global, tests: &[PlanTest]) -> Result<Vec<RunTest>, AllocError>
    ensures { IfOk result (λ planned. planned.items ≡ map run_test tests.now) }
{
    let mut planned = Vec::with_capacity(alloc, tests.len())?;
    for test in tests {
        planned.push(RunTest {
            tries: test.tries,
            flaky: test.settings.flaky_result,
            weight: test.settings.fail_weight,
        })?;
    }
    Ok(planned)
}

// The place of the first script of an id, or one past the end.
fn place_of_script(scripts: &[Text], id: &str) -> usize
    ensures { result ≡ script_place scripts.now id.now }
{
    for (place, script) in scripts.iter().enumerate() {
        if script.as_str() == id {
            return place;
        }
    }
    scripts.len()
}

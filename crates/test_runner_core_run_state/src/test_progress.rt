// How far one test is.
ghost use Rattle.std.specs.Prelude.{◌≡◌, ◌||◌, false, nat_le, is_some, Some, IfOk, OnOk, OnErr, if◌then◌else◌};
ghost use Rattle.nextest_run_events_counters.specs.Counting.{CanCountTest};
ghost use Rattle.test_runner_core_run_model.specs.State.{State, waiting, is_finished};
ghost use Rattle.test_runner_core_run_model.specs.Step.{after_attempt, finished_by, finishes};
ghost use Rattle.test_runner_core_run_model.specs.declared.mark.Mark.TheVariants as marks;
ghost use Rattle.test_runner_core_run_state.specs.Counted.{with_finished};
ghost use Rattle.test_runner_core_run_state.specs.Parts.{HasAttempts};
ghost use Rattle.test_runner_core_run_state.specs.Records.{unwritten, with_records};

use crate::keep_attempts::KeepAttempts;
use crate::kept_records::KeptRecords;
use nextest_run_events_counters::RunStats;
use nextest_run_events_results::CancelReason;
use std::alloc::{AllocError, Global};
use std::marker::Model;
use test_runner_core_run_model::{Mark, RunTest};

// How far a test is. In a clause it is the state of the test.
pub(crate) struct TestProgress<A: KeepAttempts> {
    plan: RunTest,
    attempts: A,
    mark: Mark,
}

// One call drops it, whoever holds it.
impl<A: KeepAttempts> Drop for TestProgress<A> {
    fn drop(self) {
        let Self {
            plan: _,
            attempts: _,
            mark: _,
        } = self;
    }
}

impl<A: KeepAttempts> Model for TestProgress<A> {
    ghost use Rattle.test_runner_core_run_model.specs.State.{TestState};
    ghost use Rattle.test_runner_core_run_state.specs.Parts.{KeepsTest};

    ghost Value = { TestState };

    ghost view = { λ t. record { plan = t.plan; records = A.records t.attempts; mark = t.mark } };

    ghost invariant = { λ t. KeepsTest A.are_of A.records A.room t.plan t.attempts t.mark };
}

impl<A: KeepAttempts> TestProgress<A> {
    // A test of which no attempt started. Takes no memory.
    pub(crate) fn new(plan: RunTest) -> TestProgress<A>
        ensures { result ≡ waiting plan }
    {
        TestProgress {
            plan,
            attempts: A::new(),
            mark: Mark::Waiting,
        }
    }

    // A copy of it, with room for the end of the attempt that runs.
    pub(crate) fn copy(&self, alloc: Global) -> Result<TestProgress<A>, AllocError>
        ensures { IfOk result (λ copy. copy ≡ self.now) }
    {
        Ok(TestProgress {
            plan: self.plan,
            attempts: self.attempts.copy(alloc)?,
            mark: self.mark,
        })
    }

    // What is planned of it.
    pub(crate) fn planned(&self) -> RunTest
        ensures { result ≡ self.now.plan }
    {
        self.plan
    }

    // How far it is.
    pub(crate) fn mark(&self) -> Mark
        ensures { result ≡ self.now.mark }
    {
        self.mark
    }

    // What is kept of its ended attempts.
    pub(crate) fn attempts(&self) -> &A
        ensures { HasAttempts A.are_of A.records (Some self.now) (Some result) }
    {
        &self.attempts
    }

    // An attempt starts: makes the room of its end. An `Err` changes nothing.
    pub(crate) fn start(&mut self, alloc: Global) -> Result<(), AllocError>
        requires { is_finished self.old ≡ false }
        ensures ok { OnOk result (self.new ≡ record self.old { mark = marks.Running }) }
        ensures err { OnErr result (self.new ≡ self.old) }
    {
        self.attempts.reserve(alloc)?;
        self.mark = Mark::Running;
        Ok(())
    }

    // The attempt that runs ends in a run with this reason: whether that finishes the test.
    pub(crate) fn end(
        &mut self,
        alloc: Global,
        ending: A::Ending,
        reason: Option<CancelReason>,
    ) -> bool
        requires { self.old.mark ≡ marks.Running }
        ensures after { (state : State) → state.reason ≡ reason
            → self.new ≡ after_attempt state self.old (A.record_of ending) }
        ensures finished { (state : State) → state.reason ≡ reason
            → result ≡ finishes state self.old (A.record_of ending) }
    {
        let attempt = self.attempts.len() as u32 + 1;
        let success = A::is_success(&ending);
        let finished = is_finishing(success, self.plan.tries, attempt, reason);
        self.attempts.push(alloc, self.plan, attempt, ending);
        self.mark = mark_after(finished, reason);
        finished
    }

    // The run is stopped: that finishes a test between two attempts.
    pub(crate) fn finish_between(&mut self, reason: CancelReason)
        ensures { self.new ≡ finished_by reason self.old }
    {
        if self.mark == Mark::Between {
            self.mark = Mark::Finished(Some(reason));
        }
    }

    // Counts the test, where it is finished.
    pub(crate) fn count_in(&self, stats: &mut RunStats)
        requires below_maximum { CanCountTest stats.old }
        ensures { stats.new ≡ with_finished self.now stats.old }
    {
        if let Mark::Finished(_) = self.mark {
            self.attempts.count_in(self.plan, stats);
        }
    }
}

impl TestProgress<KeptRecords> {
    // Forgets the outputs of its attempts.
    pub(crate) fn forget_outputs(&mut self)
        ensures { self.new ≡ with_records unwritten self.old }
    {
        self.attempts.forget_outputs();
    }
}

// Whether an attempt of this number, of so many, finishes its test: it is a success or the last
// one, or the run is stopped.
fn is_finishing(success: bool, tries: u32, attempt: u32, reason: Option<CancelReason>) -> bool
    ensures { result ≡ (success || nat_le tries attempt || is_some reason) }
{
    success || tries <= attempt || reason.is_some()
}

// How far a test is after an attempt.
fn mark_after(finished: bool, reason: Option<CancelReason>) -> Mark
    ensures { result ≡ (if finished then marks.Finished reason else marks.Between) }
{
    if finished {
        Mark::Finished(reason)
    } else {
        Mark::Between
    }
}

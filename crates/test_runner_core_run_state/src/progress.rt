// How far a run is.
ghost use Rattle.std.specs.Prelude.{◌≡◌, ◌<◌, ◌==◌, ◌&&◌, not, [], ◌∷◌, ◌++◌, List, None, Some, IfOk, is_some, length, slice_get, if◌then◌else◌};
ghost use Rattle.std.specs.List.{list_all};
ghost use Rattle.std.specs.Option.{option_map, option_map_or};
ghost use Rattle.nextest_run_events_results.specs.Cancel.{graver_reason};
ghost use Rattle.nextest_run_events_results.specs.Result.{is_success};
ghost use Rattle.nextest_run_events_results.specs.declared.cancel_reason.CancelReason.TheVariants as why;
ghost use Rattle.test_runner_core_run_model.specs.Counters.{counters, status, summary};
ghost use Rattle.test_runner_core_run_model.specs.Finishing.{finished_at};
ghost use Rattle.test_runner_core_run_model.specs.Runs.{is_complete};
ghost use Rattle.test_runner_core_run_model.specs.State.{TestState, initial, is_finished, is_running};
ghost use Rattle.test_runner_core_run_model.specs.Step.{after_limit, stopped_by};
ghost use Rattle.test_runner_core_run_model.specs.declared.event.Event.TheVariants as events;
ghost use Rattle.test_runner_core_run_state.specs.Counted.{CountsNoTest, with_tests_counted};
ghost use Rattle.test_runner_core_run_state.specs.Parts.{HasAttempts, IsRunningAt};
ghost use Rattle.test_runner_core_run_state.specs.Progress.{Takes, Starts, EndsAttempt};
ghost use Rattle.test_runner_core_run_state.specs.Records.{state_with, unwritten_at};
ghost use Rattle.test_runner_core_run_state.specs.Statuses.{IsScriptStatus};

use crate::all_tests::AllTests;
use crate::keep_attempts::KeepAttempts;
use crate::kept_records::KeptRecords;
use crate::recorded::script_status;
use crate::scripts::Scripts;
use crate::start_fault::StartFault;
use nextest_config_elements_choices::{MaxFail, TerminateMode};
use nextest_run_events_counters::{FinalRunStats, RunStats};
use nextest_run_events_outputs::{LiveSpec, SetupScriptExecuteStatus};
use nextest_run_events_results::{CancelReason, Record};
use std::alloc::{AllocError, Global};
use std::marker::Model;
use test_runner_core_run_model::{
    Finished, Mark, RunTest, StepRefusal, end_refusal, exit_status, script_refusal, start_refusal,
    stop_refusal,
};

/// How far a run is. The ended attempts of its tests are kept as `A` keeps them. In a clause it is
/// the state of the run.
///
/// Each event takes constant time, but the first start and the event that stops the run go over all
/// tests.
pub struct Progress<A: KeepAttempts> {
    alloc: Global,
    scripts: Scripts,
    tests: AllTests<A>,
    // The counters, with the reason why the run is stopped.
    stats: RunStats,
    limit: MaxFail,
}

// One call drops it, whoever holds it.
impl<A: KeepAttempts> Drop for Progress<A> {
    fn drop(self) {
        let Self {
            alloc: _,
            scripts: _,
            tests: _,
            stats: _,
            limit: _,
        } = self;
    }
}

impl<A: KeepAttempts> Model for Progress<A> {
    ghost use Rattle.std.specs.Prelude.{◌≡◌};
    ghost use Rattle.test_runner_core_run_model.specs.Counters.{counters};
    ghost use Rattle.test_runner_core_run_model.specs.State.{State};
    ghost use Rattle.test_runner_core_run_state.specs.Parts.{state_of};

    ghost Value = { State };

    ghost view = { λ p. state_of p.scripts p.tests p.stats p.limit };

    ghost invariant = { λ p. p.stats ≡ counters (state_of p.scripts p.tests p.stats p.limit) };
}

impl<A: KeepAttempts> Clone for Progress<A> {
    ghost use Rattle.std.specs.Prelude.{◌≡◌};

    ghost is_clone = { λ original copy. copy ≡ original };

    /// A run as far as this one, which goes on by itself. It fails only on allocation.
    fn clone(&self) -> Result<Progress<A>, AllocError> {
        Ok(Progress {
            alloc: self.alloc,
            scripts: self.scripts.copy(self.alloc)?,
            tests: self.tests.copy(self.alloc)?,
            stats: self.stats,
            limit: self.limit,
        })
    }
}

impl<A: KeepAttempts> Progress<A> {
    /// The run in which nothing ended, of so many scripts and of these tests, where `skipped`
    /// others were skipped. Makes the room for each script's status; the tests' states are made by
    /// `make_states`, or when the first of them starts. It fails only on allocation.
    pub fn new(
        alloc: Global,
        scripts: usize,
        tests: Vec<RunTest>,
        limit: MaxFail,
        skipped: usize,
    ) -> Result<Progress<A>, AllocError>
        ensures { IfOk result (λ progress. progress ≡ initial
            (record { scripts = scripts; tests = tests.items; limit = limit; skipped = skipped })) }
    {
        let initial_run_count = tests.len();
        Ok(Progress {
            alloc,
            scripts: Scripts::new(alloc, scripts)?,
            tests: AllTests::new(alloc, tests),
            stats: RunStats {
                initial_run_count,
                setup_scripts_initial_count: scripts,
                skipped,
                ..RunStats::default()
            },
            limit,
        })
    }

    /// Makes the room for each test's state, where that isn't done yet. Only time and memory depend
    /// on it. It fails only on allocation, and leaves everything as it was.
    pub fn make_states(&mut self) -> Result<(), AllocError>
        ensures { self.new ≡ self.old }
    {
        self.tests.make(self.alloc)
    }

    /// An attempt of the test at a place starts: reserves the room of its end, and that of all
    /// tests' states where it isn't made. An `Err` says why it can't start now, or that there was
    /// no memory, and leaves everything as it was.
    pub fn start(&mut self, test: usize) -> Result<(), StartFault>
        ensures { Starts self.old test result self.new }
    {
        let Some(mark) = self.tests.mark(test) else {
            return Err(StartFault::Refused(StepRefusal::UnknownTest));
        };
        let (planned, ended) = (self.scripts.planned(), self.scripts.ended());
        let is_stopped = self.stats.cancel_reason.is_some();
        if let Some(refusal) = start_refusal(mark, planned, ended, is_stopped) {
            return Err(StartFault::Refused(refusal));
        }
        self.tests.start(self.alloc, test)?;
        Ok(())
    }

    /// What the step finished: the attempt of the test at a place that runs ended so. Takes no
    /// memory. An `Err` says why that can't be, and leaves everything as it was.
    pub fn attempt_finished(
        &mut self,
        test: usize,
        ending: A::Ending,
    ) -> Result<Finished, StepRefusal>
        ensures { Takes self.old (events.Ended test (A.record_of ending)) result self.new }
    {
        let Some(mark) = self.tests.mark(test) else {
            return Err(StepRefusal::UnknownTest);
        };
        if let Some(refusal) = end_refusal(mark) {
            return Err(refusal);
        }
        let was_stopped = self.is_stopped();
        let finished = self.end(test, ending);
        let exceeded = self.limit_stop(finished);
        self.stop_for(exceeded);
        Ok(self.finished(test, was_stopped))
    }

    // The attempt of the test at a place that runs ended: whether that finishes the test.
    fn end(&mut self, test: usize, ending: A::Ending) -> bool
        requires { IsRunningAt self.old.tests test }
        ensures { EndsAttempt self.old test (A.record_of ending) result self.new }
    {
        let reason = self.stats.cancel_reason;
        let finished = self.tests.end(self.alloc, test, ending, reason);
        self.tests.count_at(test, &mut self.stats);
        finished
    }

    // What the step finished by which an attempt of the test at a place ended, in a run that was
    // stopped before or not.
    fn finished(&self, test: usize, was_stopped: bool) -> Finished
        ensures ended { result.ended
            ≡ (if finished_at self.now.tests test then Some test else None) }
        ensures stops { result.stops ≡ (not was_stopped && is_some self.now.reason) }
    {
        let ended = match self.tests.mark(test) {
            Some(Mark::Finished(_)) => Some(test),
            _ => None,
        };
        Finished {
            ended,
            stops: !was_stopped && self.is_stopped(),
        }
    }

    /// What the step finished: the script at a place ended. Takes no memory. An `Err` says why that
    /// can't be, and leaves everything as it was.
    pub fn script_finished(
        &mut self,
        script: usize,
        record: Record,
    ) -> Result<Finished, StepRefusal>
        ensures { Takes self.old (events.ScriptEnded script «record») result self.new }
    {
        let (planned, ended) = (self.scripts.planned(), self.scripts.ended());
        let is_stopped = self.stats.cancel_reason.is_some();
        if let Some(refusal) = script_refusal(script, planned, ended, is_stopped) {
            return Err(refusal);
        }
        let failed = script_stop(&record);
        self.end_script(record);
        self.stop_for(failed);
        Ok(Finished {
            ended: None,
            stops: failed.is_some(),
        })
    }

    // The next script ended.
    fn end_script(&mut self, record: Record)
        requires { length self.old.scripts < self.old.planned_scripts }
        ensures { self.new ≡ record self.old { scripts = self.old.scripts ++ «record» ∷ [] } }
    {
        let status = script_status(self.alloc, record);
        self.stats.on_setup_script_finished(&status);
        self.scripts.end(status);
    }

    /// What the step finished: the run was told to stop. Takes no memory. An `Err` says why that
    /// can't be, and leaves everything as it was.
    pub fn stop(&mut self, reason: CancelReason) -> Result<Finished, StepRefusal>
        ensures { Takes self.old (events.Stopped reason) result self.new }
    {
        if let Some(refusal) = stop_refusal(reason) {
            return Err(refusal);
        }
        let stops = !self.is_stopped();
        match self.stats.cancel_reason {
            Some(old) => self.stats.cancel_reason = Some(graver(old, reason)),
            None => self.stop_for(Some(reason)),
        }
        Ok(Finished { ended: None, stops })
    }

    // The run is stopped by a reason, if there is one.
    fn stop_for(&mut self, reason: Option<CancelReason>)
        ensures { self.new ≡ option_map_or (λ new. stopped_by new self.old) reason self.old }
    {
        if let Some(new) = reason {
            self.tests.stop(new);
            let mut stats = without_tests(&self.stats);
            self.tests.count_all(&mut stats);
            stats.cancel_reason = reason;
            self.stats = stats;
        }
    }

    // Why a run that isn't stopped is stopped now that a test finished, if it is: what failed weighs
    // as much as the limit.
    fn limit_stop(&self, finished: bool) -> Option<CancelReason>
        ensures { after_limit finished self.now
            ≡ option_map_or (λ new. stopped_by new self.now) result self.now }
    {
        if !finished || self.stats.cancel_reason.is_some() {
            return None;
        }
        match self.limit.is_exceeded(self.stats.failed_weight) {
            Some(TerminateMode::Wait) => Some(CancelReason::TestFailure),
            Some(TerminateMode::Immediate) => Some(CancelReason::TestFailureImmediate),
            None => None,
        }
    }

    /// Whether the run is complete: all scripts and tests finished, or it is stopped and nothing
    /// runs.
    pub fn is_complete(&self) -> bool
        ensures { result ≡ is_complete self.now }
    {
        self.is_over() || self.is_still()
    }

    // Whether all scripts and tests finished.
    fn is_over(&self) -> bool
        ensures { result ≡ (length self.now.scripts == self.now.planned_scripts && list_all
            is_finished self.now.tests) }
    {
        let all_scripts = self.scripts.ended() == self.scripts.planned();
        all_scripts && self.stats.finished_count == self.stats.initial_run_count
    }

    // Whether the run is stopped and nothing runs.
    fn is_still(&self) -> bool
        ensures { result
            ≡ (is_some self.now.reason && list_all (λ test. not (is_running test)) self.now.tests) }
    {
        self.stats.cancel_reason.is_some() && self.tests.none_runs()
    }

    /// The counters so far.
    pub fn stats(&self) -> RunStats
        ensures { result ≡ counters self.now }
    {
        self.stats
    }

    /// What the counters come to so far.
    pub fn summary(&self) -> FinalRunStats
        ensures { result ≡ summary self.now }
    {
        self.stats.summarize_final()
    }

    /// The exit status so far.
    pub fn status(&self) -> u8
        ensures { result ≡ status self.now }
    {
        exit_status(self.summary())
    }

    /// Whether the run is stopped.
    pub fn is_stopped(&self) -> bool
        ensures { result ≡ is_some self.now.reason }
    {
        self.stats.cancel_reason.is_some()
    }

    /// How many attempts the test at a place has at most, its flaky rule and its weight; `None`
    /// where the plan has no such place.
    pub fn planned(&self, test: usize) -> Option<RunTest>
        ensures { result ≡ option_map (λ t. t.plan) (slice_get self.now.tests test) }
    {
        self.tests.planned(test)
    }

    /// How far the test at a place is; `None` where the plan has no such place.
    pub fn mark(&self, test: usize) -> Option<Mark>
        ensures { result ≡ option_map (λ t. t.mark) (slice_get self.now.tests test) }
    {
        self.tests.mark(test)
    }

    /// What is kept of the ended attempts of the test at a place; `None` where the plan has no such
    /// place.
    pub fn attempts(&self, test: usize) -> Option<&A>
        ensures { HasAttempts A.are_of A.records (slice_get self.now.tests test) result }
    {
        self.tests.attempts(test)
    }

    /// The status of the script at a place; `None` where the plan has no such place, or it didn't
    /// end.
    pub fn ended_script(&self, script: usize) -> Option<&SetupScriptExecuteStatus<LiveSpec>>
        ensures { IsScriptStatus (slice_get self.now.scripts script) result }
    {
        self.scripts.status(script)
    }
}

impl Progress<KeptRecords> {
    /// Forgets the outputs of the attempts of the test at a place, if the plan has such a place.
    /// Takes no memory.
    pub fn forget_outputs(&mut self, test: usize)
        ensures { self.new ≡ state_with (unwritten_at test) self.old }
    {
        self.tests.forget_outputs(test);
    }
}

// The counters with no test counted.
fn without_tests(stats: &RunStats) -> RunStats
    ensures none { CountsNoTest result }
    ensures rest { (tests : List TestState)
        → with_tests_counted tests result ≡ with_tests_counted tests stats.now }
{
    RunStats {
        initial_run_count: stats.initial_run_count,
        setup_scripts_initial_count: stats.setup_scripts_initial_count,
        setup_scripts_finished_count: stats.setup_scripts_finished_count,
        setup_scripts_passed: stats.setup_scripts_passed,
        setup_scripts_failed: stats.setup_scripts_failed,
        setup_scripts_exec_failed: stats.setup_scripts_exec_failed,
        setup_scripts_timed_out: stats.setup_scripts_timed_out,
        skipped: stats.skipped,
        cancel_reason: stats.cancel_reason,
        ..RunStats::default()
    }
}

// Why the record of a script stops the run, if it does.
fn script_stop(record: &Record) -> Option<CancelReason>
    ensures { result
        ≡ (if is_success «record».now.result then None else Some why.SetupScriptFailure) }
{
    if record.result.is_success() {
        None
    } else {
        Some(CancelReason::SetupScriptFailure)
    }
}

// The graver of two reasons.
fn graver(old: CancelReason, new: CancelReason) -> CancelReason
    ensures { result ≡ graver_reason old new }
{
    if old < new { new } else { old }
}

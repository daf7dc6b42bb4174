// Runs of a plan by what they keep: statuses, or records.
ghost use Rattle.std.specs.Prelude.{◌≡◌, slice_get};
ghost use Rattle.test_runner_core_run_state.specs.Records.{state_with, unwritten_at};
ghost use Rattle.test_runner_core_session.specs.Session.{test_of, IsFate};

use crate::plan_run::PlanRun;
use nextest_run_events_counters::ExecutionStatuses;
use nextest_run_events_outputs::LiveSpec;
use nextest_run_events_results::TestInstanceId;
use test_runner_core_run_model::{Mark, RunTest};
use test_runner_core_run_state::{KeptRecords, KeptStatuses};

/// How far a test is, and what is planned of it.
#[derive(Clone, Copy)]
pub struct Fate<'s> {
    /// Whether it waits, runs, is between two attempts or is finished.
    pub mark: Mark,
    /// How many attempts it has at most, its flaky rule and its weight.
    pub plan: RunTest,
    /// Its ended attempts; `None` where none ended.
    pub attempts: Option<&'s ExecutionStatuses<LiveSpec>>,
}

/// A run of a plan, which is lent, that keeps the ended attempts of its tests as statuses. In a
/// clause it is the plan, and the state of the run.
pub type Session<'a> = PlanRun<'a, KeptStatuses>;

/// A run of a plan, which is lent, that keeps the ended attempts of its tests as records, in less
/// memory: what `judge` does. In a clause it is the plan, and the state of the run.
pub type RecordSession<'a> = PlanRun<'a, KeptRecords>;

impl<'a> Session<'a> {
    /// How far a test is; `None` where the plan doesn't have it.
    pub fn fate(&self, test: TestInstanceId<'_>) -> Option<Fate<'_>>
        ensures { IsFate
            (test_of self.now test.entry.binary_id.now test.entry.test_name.now) result }
    {
        self.fate_at(self.place(test))
    }

    /// How far the test at a place is; `None` where the plan has no such place.
    pub fn fate_at(&self, place: usize) -> Option<Fate<'_>>
        ensures { IsFate (slice_get self.now.run.tests place) result }
    {
        let Some(kept) = self.kept_at(place) else {
            return None;
        };
        Some(Fate {
            mark: kept.mark,
            plan: kept.plan,
            attempts: kept.attempts.statuses(),
        })
    }
}

impl<'a> RecordSession<'a> {
    /// Forgets the outputs of the attempts of the test at a place, if the plan has such a place.
    /// Takes no memory.
    pub fn forget_outputs(&mut self, place: usize)
        ensures plan { self.new.plan ≡ self.old.plan }
        ensures run { self.new.run ≡ state_with (unwritten_at place) self.old.run }
    {
        self.progress.forget_outputs(place);
    }
}

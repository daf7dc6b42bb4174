// Ended attempts, kept as statuses.
ghost use Rattle.std.specs.Prelude.{◌≡◌, ◌<◌, ◌≤◌, [], ◌∷◌, ◌++◌, None, Some, MatchOption, IfOk, OnOk, length};
ghost use Rattle.test_runner_core_run_model.specs.declared.run_test.RunTest.{RunTest as Plan};
ghost use Rattle.test_runner_core_run_state.specs.Kept.{statuses_in, room_in, rule_in, records_in, AreKept, KeepsAttempts, KeepsRule};
ghost use Rattle.test_runner_core_run_state.specs.Statuses.{AreAttempts};

use crate::copying::copied;
use crate::keep_attempts::KeepAttempts;
use crate::recorded::execute_status;
use nextest_config_elements_choices::FlakyResult;
use nextest_run_events_counters::{ExecutionStatuses, RunStats};
use nextest_run_events_outputs::{ExecuteStatus, LiveSpec, RetryData};
use nextest_run_events_results::Record;
use nextest_text::Listing;
use std::alloc::{AllocError, Global};
use std::marker::Model;
use std::mem;
use test_runner_core_run_model::RunTest;

/// Ended attempts, kept as statuses, and the room of the one that runs. In a clause it is those,
/// for how many there is room, and the flaky rule once an attempt ended.
#[derive(Drop)]
pub struct KeptStatuses {
    attempts: SlotAttempts,
}

// What a slot holds.
#[derive(Drop)]
pub(crate) enum SlotAttempts {
    // No attempt ended, and there is no room for one.
    Empty,
    // No attempt ended, and there is room for one.
    Reserved(Vec<ExecuteStatus<LiveSpec>>),
    // The attempts that ended.
    Ended(ExecutionStatuses<LiveSpec>),
}

impl Model for KeptStatuses {
    ghost use Rattle.test_runner_core_run_state.specs.Kept.{StatusesState, statuses_in, room_in, rule_in, KeepsAttempts};

    ghost Value = { StatusesState };

    ghost view = { λ s. record {
      statuses = statuses_in s.attempts;
      room = room_in s.attempts;
      rule = rule_in s.attempts;
    } };

    ghost invariant = { λ s. KeepsAttempts s.attempts };
}

impl KeptStatuses {
    /// The attempts; `None` where none ended.
    pub fn statuses(&self) -> Option<&ExecutionStatuses<LiveSpec>>
        ensures { (plan : Plan) → AreKept plan self.now
            → MatchOption result (records_in self.now ≡ [])
            (λ found. AreAttempts plan.tries plan.flaky (records_in self.now) found.now) }
    {
        self.attempts()
    }

    // The attempts; `None` where none ended.
    fn attempts(&self) -> Option<&ExecutionStatuses<LiveSpec>>
        ensures { MatchOption result ((self.now.statuses ≡ []) × (self.now.rule ≡ None))
            (λ found. (found.now.statuses ≡ self.now.statuses)
            × (self.now.rule ≡ Some found.now.flaky_result) × (0 < length self.now.statuses)) }
    {
        match &self.attempts {
            SlotAttempts::Empty => None,
            SlotAttempts::Reserved(_) => None,
            SlotAttempts::Ended(attempts) => Some(attempts),
        }
    }
}

impl KeepAttempts for KeptStatuses {
    ghost use Rattle.test_runner_core_run_state.specs.Kept.{records_in, AreKept};

    type Ending = Record;

    ghost record_of = { λ ending. ending };

    ghost records = { λ kept. records_in kept };

    ghost room = { λ kept. kept.room };

    ghost are_of = { λ plan kept. AreKept plan kept };

    fn new() -> KeptStatuses {
        KeptStatuses {
            attempts: SlotAttempts::Empty,
        }
    }

    fn len(&self) -> usize {
        match &self.attempts {
            SlotAttempts::Empty => 0,
            SlotAttempts::Reserved(_) => 0,
            SlotAttempts::Ended(attempts) => attempts.len(),
        }
    }

    fn reserve(&mut self, alloc: Global) -> Result<(), AllocError> {
        reserve_in(&mut self.attempts, alloc)
    }

    fn push(&mut self, alloc: Global, plan: RunTest, attempt: u32, ending: Record) {
        let retry_data = RetryData {
            attempt,
            total_attempts: plan.tries,
        };
        let status = execute_status(alloc, ending, retry_data);
        push_in(&mut self.attempts, status, plan.flaky);
    }

    fn copy(&self, alloc: Global) -> Result<KeptStatuses, AllocError> {
        Ok(KeptStatuses {
            attempts: copy_in(&self.attempts, alloc)?,
        })
    }

    fn count_in(&self, plan: RunTest, stats: &mut RunStats) {
        if let Some(attempts) = self.attempts() {
            stats.on_test_finished(attempts, plan.weight);
        }
    }

    fn is_success(ending: &Record) -> bool {
        ending.result.is_success()
    }
}

// Makes room for an attempt.
fn reserve_in(attempts: &mut SlotAttempts, alloc: Global) -> Result<(), AllocError>
    requires { KeepsAttempts attempts.old }
    ensures room { OnOk result (0 < room_in attempts.new) }
    ensures grows { room_in attempts.old ≤ room_in attempts.new }
    ensures statuses { statuses_in attempts.new ≡ statuses_in attempts.old }
    ensures rule { rule_in attempts.new ≡ rule_in attempts.old }
    ensures attempts { KeepsAttempts attempts.new }
{
    match attempts {
        SlotAttempts::Empty => {
            *attempts = SlotAttempts::Reserved(Vec::with_capacity(alloc, 1)?);
            Ok(())
        }
        SlotAttempts::Reserved(first) => first.reserve(1),
        SlotAttempts::Ended(ended) => ended.reserve_one(),
    }
}

// Adds an attempt, for which there is room.
fn push_in(attempts: &mut SlotAttempts, status: ExecuteStatus<LiveSpec>, flaky: FlakyResult)
    requires room { 0 < room_in attempts.old }
    requires rule { KeepsRule flaky (rule_in attempts.old) }
    ensures statuses { statuses_in attempts.new ≡ statuses_in attempts.old ++ status ∷ [] }
    ensures rule { rule_in attempts.new ≡ Some flaky }
    ensures attempts { KeepsAttempts attempts.new }
{
    *attempts = match mem::replace(attempts, SlotAttempts::Empty) {
        SlotAttempts::Empty => unreachable!(),
        SlotAttempts::Reserved(mut first) => {
            first.push_reserved(status);
            SlotAttempts::Ended(ExecutionStatuses::new(Listing::from(first), flaky))
        }
        SlotAttempts::Ended(mut ended) => {
            ended.push_reserved(status);
            SlotAttempts::Ended(ended)
        }
    };
}

// A copy of what a slot holds, with room for an attempt where there was any.
fn copy_in(attempts: &SlotAttempts, alloc: Global) -> Result<SlotAttempts, AllocError>
    requires { KeepsAttempts attempts.now }
    ensures room { IfOk result (λ copy. 0 < room_in attempts.now → 0 < room_in copy) }
    ensures statuses { IfOk result (λ copy. statuses_in copy ≡ statuses_in attempts.now) }
    ensures rule { IfOk result (λ copy. rule_in copy ≡ rule_in attempts.now) }
    ensures attempts { IfOk result (λ copy. KeepsAttempts copy) }
{
    match attempts {
        SlotAttempts::Empty => Ok(SlotAttempts::Empty),
        SlotAttempts::Reserved(_) => Ok(SlotAttempts::Reserved(Vec::with_capacity(alloc, 1)?)),
        SlotAttempts::Ended(ended) => Ok(SlotAttempts::Ended(roomy_copy(alloc, ended)?)),
    }
}

// A copy of attempts, with room for one more.
fn roomy_copy(
    alloc: Global,
    ended: &ExecutionStatuses<LiveSpec>,
) -> Result<ExecutionStatuses<LiveSpec>, AllocError>
    ensures room { IfOk result (λ copy. 0 < copy.room) }
    ensures statuses { IfOk result (λ copy. copy.statuses ≡ ended.now.statuses) }
    ensures rule { IfOk result (λ copy. copy.flaky_result ≡ ended.now.flaky_result) }
{
    let attempts = ended.as_slice();
    let statuses = copied(alloc, attempts, attempts.len() + 1)?;
    let mut copy = ExecutionStatuses::new(Listing::from(statuses), ended.flaky_result());
    copy.reserve_one()?;
    Ok(copy)
}

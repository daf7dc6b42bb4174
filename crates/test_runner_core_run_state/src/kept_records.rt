// Ended attempts, kept as their records.
ghost use Rattle.std.specs.Prelude.{◌≡◌, ◌<◌, ◌≤◌, ◌∷◌, ◌++◌, [], IfOk, OnOk, map};
ghost use Rattle.nextest_run_events_results.specs.declared.record.Record.{Record};
ghost use Rattle.test_runner_core_run_state.specs.Kept.{record_room, records_of};
ghost use Rattle.test_runner_core_run_state.specs.Records.{unwritten};

use crate::copying::copied;
use crate::keep_attempts::KeepAttempts;
use crate::kept_record::KeptRecord;
use nextest_run_events_counters::RunStats;
use nextest_run_events_results::ExecutionResultDescription;
use std::alloc::{AllocError, Global};
use std::marker::Model;
use std::{mem, slice};
use test_runner_core_run_model::RunTest;

/// Ended attempts, kept as their records, and the room of the one that runs: that of the first is
/// in place. In a clause it is those, and for how many there is room.
#[derive(Drop)]
pub struct KeptRecords {
    records: RecordsSlot,
}

// Records: most tests have one attempt.
#[derive(Drop)]
pub(crate) enum RecordsSlot {
    // None, and room for one.
    Empty,
    // One, and no room.
    One(KeptRecord),
    // Several, or one with room for more.
    Several(Vec<KeptRecord>),
}

impl Model for KeptRecords {
    ghost use Rattle.test_runner_core_run_state.specs.Kept.{RecordsState, record_room, records_of};

    ghost Value = { RecordsState };

    ghost view = { λ k. record { records = records_of k.records; room = record_room k.records } };
}

impl KeptRecords {
    /// The records, in their order.
    pub fn as_slice(&self) -> &[KeptRecord]
        ensures { result.now ≡ self.now.records }
    {
        match &self.records {
            RecordsSlot::Empty => &[],
            RecordsSlot::One(only) => slice::from_ref(only),
            RecordsSlot::Several(records) => records.as_slice(),
        }
    }

    // Forgets the outputs of the attempts.
    pub(crate) fn forget_outputs(&mut self)
        ensures records { self.new.records ≡ map unwritten self.old.records }
        ensures room { self.new.room ≡ self.old.room }
    {
        forget_in(&mut self.records);
    }
}

impl KeepAttempts for KeptRecords {
    ghost use Rattle.std.specs.Prelude.{⊤};

    type Ending = KeptRecord;

    ghost record_of = { λ ending. ending };

    ghost records = { λ kept. kept.records };

    ghost room = { λ kept. kept.room };

    ghost are_of = { λ _ _. ⊤ };

    fn new() -> KeptRecords {
        KeptRecords {
            records: RecordsSlot::Empty,
        }
    }

    fn len(&self) -> usize {
        self.as_slice().len()
    }

    fn reserve(&mut self, alloc: Global) -> Result<(), AllocError> {
        reserve_in(&mut self.records, alloc)
    }

    fn push(&mut self, _alloc: Global, _plan: RunTest, _attempt: u32, ending: KeptRecord) {
        push_in(&mut self.records, ending);
    }

    fn copy(&self, alloc: Global) -> Result<KeptRecords, AllocError> {
        Ok(KeptRecords {
            records: copy_in(&self.records, alloc)?,
        })
    }

    fn count_in(&self, plan: RunTest, stats: &mut RunStats) {
        let records = self.as_slice();
        let late = records.len() > 1;
        if let Some(last) = records.last() {
            match last.whole() {
                Some(whole) => {
                    stats.count_test(&whole.result, whole.slow, late, plan.flaky, plan.weight);
                }
                None => stats.count_test(
                    &ExecutionResultDescription::Pass,
                    last.slow(),
                    late,
                    plan.flaky,
                    plan.weight,
                ),
            }
        }
    }

    fn is_success(ending: &KeptRecord) -> bool {
        ending.is_success()
    }
}

// Makes room for a record.
fn reserve_in(records: &mut RecordsSlot, alloc: Global) -> Result<(), AllocError>
    ensures room { OnOk result (0 < record_room records.new) }
    ensures grows { record_room records.old ≤ record_room records.new }
    ensures records { records_of records.new ≡ records_of records.old }
{
    match records {
        RecordsSlot::Empty => Ok(()),
        RecordsSlot::Several(several) => several.reserve(1),
        RecordsSlot::One(_) => {
            let mut several = Vec::with_capacity(alloc, 2)?;
            match mem::replace(records, RecordsSlot::Empty) {
                RecordsSlot::One(first) => several.push_reserved(first),
                RecordsSlot::Empty | RecordsSlot::Several(_) => unreachable!(),
            }
            *records = RecordsSlot::Several(several);
            Ok(())
        }
    }
}

// Adds a record, for which there is room.
fn push_in(records: &mut RecordsSlot, ending: KeptRecord)
    requires room { 0 < record_room records.old }
    ensures records { records_of records.new ≡ records_of records.old ++ ending ∷ [] }
{
    *records = match mem::replace(records, RecordsSlot::Empty) {
        RecordsSlot::Empty => RecordsSlot::One(ending),
        RecordsSlot::One(_) => unreachable!(),
        RecordsSlot::Several(mut several) => {
            several.push_reserved(ending);
            RecordsSlot::Several(several)
        }
    };
}

// A copy of records, with room for one where these have.
fn copy_in(records: &RecordsSlot, alloc: Global) -> Result<RecordsSlot, AllocError>
    ensures records { IfOk result (λ copy. records_of copy ≡ records_of records.now) }
    ensures room { IfOk result (λ copy. 0 < record_room records.now → 0 < record_room copy) }
{
    match records {
        RecordsSlot::Empty => Ok(RecordsSlot::Empty),
        RecordsSlot::One(only) => Ok(RecordsSlot::One(only.clone()?)),
        RecordsSlot::Several(several) => {
            let copy = copied(alloc, several.as_slice(), several.capacity())?;
            Ok(RecordsSlot::Several(copy))
        }
    }
}

// Forgets the outputs of the attempts.
fn forget_in(records: &mut RecordsSlot)
    ensures records { records_of records.new ≡ map unwritten (records_of records.old) }
    ensures room { record_room records.new ≡ record_room records.old }
{
    match records {
        RecordsSlot::Empty => {}
        RecordsSlot::One(only) => only.forget_output(),
        RecordsSlot::Several(several) => forget_each(several.as_mut_slice()),
    }
}

// Forgets the output of each of these attempts.
fn forget_each(records: &mut [KeptRecord])
    ensures { records.new ≡ map unwritten records.old }
{
    for ended in records.iter_mut() {
        ended.forget_output();
    }
}

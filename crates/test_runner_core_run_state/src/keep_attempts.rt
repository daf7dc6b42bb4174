// How the ended attempts of a test are kept.
use nextest_run_events_counters::RunStats;
use std::alloc::{AllocError, Global};
use test_runner_core_run_model::RunTest;

/// How the ended attempts of a test are kept: as statuses for who looks at them (`KeptStatuses`),
/// or as records, in less memory (`KeptRecords`).
pub trait KeepAttempts: Drop {
    ghost use Rattle.std.specs.Prelude.{◌≡◌, ℕ, ◌+◌, ◌<◌, ◌≤◌, List, [], ◌∷◌, ◌++◌, IfOk, OnOk, length};
    ghost use Rattle.nextest_run_events_counters.specs.Counting.{CanCountTest};
    ghost use Rattle.nextest_run_events_results.specs.Result.{is_success};
    ghost use Rattle.nextest_run_events_results.specs.declared.record.Record.{Record};
    ghost use Rattle.test_runner_core_run_model.specs.declared.run_test.RunTest.{RunTest};
    ghost use Rattle.test_runner_core_run_state.specs.Counted.{with_last_record};

    /// How an attempt ended, as it is handed in.
    type Ending: Drop;

    // Its record.
    ghost record_of: { Self.Ending → Record };

    // The records of the attempts, in their order.
    ghost records: { Self → List Record };

    // For how many more attempts there is room.
    ghost room: { Self → ℕ };

    // They are kept as those of a test with this plan.
    ghost are_of: { RunTest → Self → Type 0 };

    /// No attempts. Takes no memory.
    fn new() -> Self
        ensures none { records result ≡ [] }
        ensures of { (plan : RunTest) → are_of plan result };

    /// How many there are.
    fn len(&self) -> usize
        ensures { result ≡ length (records self.now) };

    /// Makes room for an attempt. An `Err` changes nothing but the room, which is no less.
    fn reserve(&mut self, alloc: Global) -> Result<(), AllocError>
        ensures room { OnOk result (0 < room self.new) }
        ensures grows { room self.old ≤ room self.new }
        ensures records { records self.new ≡ records self.old }
        ensures of { (plan : RunTest) → are_of plan self.old → are_of plan self.new };

    /// The attempt of this number, which is the next one, of a test with this plan ended so. Takes
    /// no memory.
    fn push(&mut self, alloc: Global, plan: RunTest, attempt: u32, ending: Self::Ending)
        requires room { 0 < room self.old }
        requires of { are_of plan self.old }
        requires next { attempt ≡ length (records self.old) + 1 }
        ensures records { records self.new ≡ records self.old ++ record_of ending ∷ [] }
        ensures of { are_of plan self.new };

    /// A copy of them, with room for an attempt where these have. It fails only on allocation.
    fn copy(&self, alloc: Global) -> Result<Self, AllocError>
        ensures records { IfOk result (λ copy. records copy ≡ records self.now) }
        ensures room { IfOk result (λ copy. 0 < room self.now → 0 < room copy) }
        ensures of { IfOk result
            (λ copy. (plan : RunTest) → are_of plan self.now → are_of plan copy) };

    /// Counts a finished test with this plan by these attempts, if there is one.
    fn count_in(&self, plan: RunTest, stats: &mut RunStats)
        requires of { are_of plan self.now }
        requires below_maximum { CanCountTest stats.old }
        ensures { stats.new ≡ with_last_record plan (records self.now) stats.old };

    /// Whether an attempt that ended so is a success.
    fn is_success(ending: &Self::Ending) -> bool
        ensures { result ≡ is_success (record_of ending.now).result };
}

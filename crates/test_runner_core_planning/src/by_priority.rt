// The tests of binaries, those of each priority one after another.
ghost use Rattle.std.specs.Prelude.{◌≡◌, [], ◌∷◌, ◌++◌, IfOk, OnOk};
ghost use Rattle.std.specs.List.{filter};
ghost use Rattle.std.specs.List.Sorted.{IsPermutation};
ghost use Rattle.test_runner_core_plan.specs.declared.plan.PlanTest.{PlanTest};
ghost use Rattle.test_runner_core_planning.specs.Settled.{is_in_turn, settled_test, tests_of_all};

use nextest_config_elements_values::TestPriority;
use nextest_run_events_results::{OwnedTestInstanceId, RustBinaryId};
use nextest_text::{Text, Texts};
use std::alloc::{AllocError, Global};
use std::marker::Model;
use test_runner_core_plan::{PlanTest, SharedSettings};

// Of more priorities tests aren't told apart one by one: sorting them takes no longer then.
const MANY: usize = 16;

// The selected tests of a binary, by their names and settings. In a clause they are tests of a
// plan.
pub(crate) struct SettledBinary {
    pub(crate) id: RustBinaryId,
    pub(crate) names: Texts,
    pub(crate) settings: Vec<SharedSettings>,
}

// One call drops it, whoever holds it.
impl Drop for SettledBinary {
    fn drop(self) {
        let Self {
            id: _,
            names: _,
            settings: _,
        } = self;
    }
}

impl Model for SettledBinary {
    ghost use Rattle.std.specs.Prelude.{List};
    ghost use Rattle.test_runner_core_plan.specs.declared.plan.PlanTest.{PlanTest};
    ghost use Rattle.test_runner_core_planning.specs.Settled.{tests_of_binary};

    ghost Value = { List PlanTest };

    ghost view = { λ it. tests_of_binary it.id it.names it.settings.items };
}

// Which tests come next.
#[derive(Clone, Copy)]
enum Turn<'p> {
    // Those of this priority.
    Of(TestPriority),
    // Those of none of these.
    Left(&'p [TestPriority]),
}

// The tests of binaries. Where they have some of these priorities, those of each stand together, in
// the order of the priorities; so the plan's order is found sooner, and nothing else depends on it:
// without it 300,000 tests under 20 overrides, some with priorities, take 1.1 times as long to plan.
pub(crate) fn tests_by_priority(
    alloc: Global,
    binaries: &[SettledBinary],
    priorities: &[TestPriority],
) -> Result<Vec<PlanTest>, AllocError>
    ensures { IfOk result (λ tests. IsPermutation (tests_of_all binaries.now) tests.items) }
{
    if priorities.len() < 2 || priorities.len() > MANY {
        return tests_in_turns(alloc, binaries, &[]);
    }
    tests_in_turns(alloc, binaries, priorities)
}

// How many tests these are, for which room is made at once.
fn count_of(binaries: &[SettledBinary]) -> usize {
    let mut count: usize = 0;
    for binary in binaries {
        count = count.saturating_add(binary.names.len());
    }
    count
}

// The tests of binaries: those of the first priority, those of the next and so on, and those of
// other priorities behind them.
fn tests_in_turns(
    alloc: Global,
    binaries: &[SettledBinary],
    priorities: &[TestPriority],
) -> Result<Vec<PlanTest>, AllocError>
    ensures { IfOk result (λ tests. IsPermutation (tests_of_all binaries.now) tests.items) }
{
    let mut tests = Vec::with_capacity(alloc, count_of(binaries))?;
    let mut done = Vec::new(alloc);
    for priority in priorities {
        if !done.as_slice().contains(priority) {
            push_turn(binaries, &Turn::Of(*priority), &mut tests)?;
            done.push(*priority)?;
        }
    }
    push_turn(binaries, &Turn::Left(done.as_slice()), &mut tests)?;
    Ok(tests)
}

// Adds those tests of binaries whose turn it is.
fn push_turn(
    binaries: &[SettledBinary],
    turn: &Turn<'_>,
    tests: &mut Vec<PlanTest>,
) -> Result<(), AllocError>
    ensures { OnOk result (tests.new.items
        ≡ tests.old.items ++ filter (is_in_turn turn.now) (tests_of_all binaries.now)) }
{
    for binary in binaries {
        push_turn_of(binary, turn, tests)?;
    }
    Ok(())
}

// The same of one binary.
fn push_turn_of(
    binary: &SettledBinary,
    turn: &Turn<'_>,
    tests: &mut Vec<PlanTest>,
) -> Result<(), AllocError>
    ensures { OnOk result
        (tests.new.items ≡ tests.old.items ++ filter (is_in_turn turn.now) binary.now) }
{
    for index in 0..binary.names.len().min(binary.settings.len()) {
        let settings = &binary.settings[index];
        if !is_in_turn(turn, settings.priority) {
            continue;
        }
        let name = binary.names.to_text(index)?;
        push_test(&binary.id, name, settings.clone()?, tests)?;
    }
    Ok(())
}

// Whether it is the turn of tests of this priority.
fn is_in_turn(turn: &Turn<'_>, priority: TestPriority) -> bool
    ensures { (test : PlanTest) → test.settings.priority ≡ priority
        → result ≡ is_in_turn turn.now test }
{
    match turn {
        Turn::Of(chosen) => *chosen == priority,
        Turn::Left(done) => !done.contains(&priority),
    }
}

// Adds a test of the binary of this id, with these settings.
fn push_test(
    id: &RustBinaryId,
    name: Text,
    settings: SharedSettings,
    tests: &mut Vec<PlanTest>,
) -> Result<(), AllocError>
    ensures { OnOk result
        (tests.new.items ≡ tests.old.items ++ settled_test id.now name settings ∷ []) }
{
    let tries = settings.retries.count().saturating_add(1);
    let instance = OwnedTestInstanceId {
        binary_id: id.clone()?,
        test_name: name,
    };
    tests.push(PlanTest {
        instance,
        settings,
        tries,
    })?;
    Ok(())
}

// Which steps of tests, and which stops, are refused. Each answers by what a run shows of itself,
// the first reason in the written order.
ghost use Rattle.std.specs.Prelude.{ℕ};
ghost use Rattle.test_runner_core_run_model.specs.State.{State};
ghost use Rattle.test_runner_core_run_model.specs.Decisions.{Decides, ShowsScripts, ShowsTest};
ghost use Rattle.test_runner_core_run_model.specs.declared.event.Event.TheVariants as events;
ghost use Rattle.nextest_run_events_results.specs.declared.record.Record.{Record};

use super::mark::Mark;
use super::step_refusal::StepRefusal;
use nextest_run_events_results::CancelReason;

/// Why an attempt of a test with this mark can't start now, where so many scripts are planned and
/// ended; `None` where it can.
pub fn start_refusal(
    mark: Mark,
    planned: usize,
    ended: usize,
    is_stopped: bool,
) -> Option<StepRefusal>
    ensures { (state : State) (place : ℕ) → ShowsScripts state planned ended is_stopped
        → ShowsTest state place mark → Decides state (events.Started place) result }
{
    if is_stopped {
        return Some(StepRefusal::Stopped);
    }
    if ended < planned {
        return Some(StepRefusal::ScriptsPending);
    }
    match mark {
        Mark::Waiting => None,
        Mark::Between => None,
        Mark::Running => Some(StepRefusal::Running),
        Mark::Finished(_) => Some(StepRefusal::Finished),
    }
}

/// Why an attempt of a test with this mark can't end now; `None` where it can, stopped or not.
pub fn end_refusal(mark: Mark) -> Option<StepRefusal>
    ensures { (state : State) (place : ℕ) (ending : Record) → ShowsTest state place mark
        → Decides state (events.Ended place ending) result }
{
    match mark {
        Mark::Running => None,
        Mark::Waiting => Some(StepRefusal::NotRunning),
        Mark::Between => Some(StepRefusal::NotRunning),
        Mark::Finished(_) => Some(StepRefusal::NotRunning),
    }
}

/// Why a run can't be told to stop for this reason; `None` where it can, which is at any time.
pub fn stop_refusal(reason: CancelReason) -> Option<StepRefusal>
    ensures { (state : State) → Decides state (events.Stopped reason) result }
{
    if reason.is_inner() {
        Some(StepRefusal::InnerReason)
    } else {
        None
    }
}

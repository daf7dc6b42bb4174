// Which ends of scripts are refused: the first reason in the written order.
ghost use Rattle.test_runner_core_run_model.specs.State.{State};
ghost use Rattle.test_runner_core_run_model.specs.Decisions.{Decides, ShowsScripts};
ghost use Rattle.test_runner_core_run_model.specs.declared.event.Event.TheVariants as events;
ghost use Rattle.nextest_run_events_results.specs.declared.record.Record.{Record};

use super::step_refusal::StepRefusal;

/// Why the script at a place can't end now, where so many are planned and ended; `None` where it
/// can.
pub fn script_refusal(
    script: usize,
    planned: usize,
    ended: usize,
    is_stopped: bool,
) -> Option<StepRefusal>
    ensures { (state : State) (ending : Record) → ShowsScripts state planned ended is_stopped
        → Decides state (events.ScriptEnded script ending) result }
{
    if planned <= script {
        return Some(StepRefusal::UnknownScript);
    }
    if is_stopped {
        return Some(StepRefusal::Stopped);
    }
    if script != ended {
        return Some(StepRefusal::OutOfOrder);
    }
    None
}

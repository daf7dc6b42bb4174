// The setup scripts of a run.
ghost use Rattle.std.specs.Prelude.{◌≡◌, ◌^◌, ◌<◌, [], ◌∷◌, ◌++◌, IfOk, length, slice_get};
ghost use Rattle.test_runner_core_run_state.specs.Statuses.{IsScriptStatus, IsScriptStatusOf, script_record_of};

use crate::copying::copied;
use nextest_run_events_outputs::{LiveSpec, SetupScriptExecuteStatus};
use std::alloc::{AllocError, Global};
use std::marker::Model;

// The setup scripts of a run. In a clause it is how many are to run, and the records of those that
// ended.
#[derive(Drop)]
pub(crate) struct Scripts {
    planned: usize,
    statuses: Vec<SetupScriptExecuteStatus<LiveSpec>>,
}

impl Model for Scripts {
    ghost use Rattle.std.specs.Prelude.{map, vec_capacity};
    ghost use Rattle.test_runner_core_run_state.specs.Parts.{ScriptState, KeepsScripts};
    ghost use Rattle.test_runner_core_run_state.specs.Statuses.{script_record_of};

    ghost Value = { ScriptState };

    ghost view = { λ s. record {
      planned = s.planned;
      ended = map script_record_of s.statuses.items;
    } };

    ghost invariant = { λ s. KeepsScripts (map script_record_of s.statuses.items)
        s.statuses.items s.planned (vec_capacity s.statuses) };
}

impl Scripts {
    // So many scripts, of which none ended. Makes the room of their statuses.
    pub(crate) fn new(alloc: Global, planned: usize) -> Result<Scripts, AllocError>
        ensures { IfOk result (λ scripts. scripts ≡ record { planned = planned; ended = [] }) }
    {
        Ok(Scripts {
            planned,
            statuses: Vec::with_capacity(alloc, planned)?,
        })
    }

    // A copy of them, with the room of their statuses.
    pub(crate) fn copy(&self, alloc: Global) -> Result<Scripts, AllocError>
        ensures { IfOk result (λ copy. copy ≡ self.now) }
    {
        Ok(Scripts {
            planned: self.planned,
            statuses: copied(alloc, self.statuses.as_slice(), self.planned)?,
        })
    }

    // How many are to run.
    pub(crate) fn planned(&self) -> usize
        ensures { result ≡ self.now.planned }
    {
        self.planned
    }

    // How many ended.
    pub(crate) fn ended(&self) -> usize
        ensures count { result ≡ length self.now.ended }
        ensures bound { result < 2 ^ 63 }
    {
        self.statuses.len()
    }

    // The status of the script at a place; `None` where it didn't end.
    pub(crate) fn status(&self, place: usize) -> Option<&SetupScriptExecuteStatus<LiveSpec>>
        ensures { IsScriptStatus (slice_get self.now.ended place) result }
    {
        self.statuses.as_slice().get(place)
    }

    // The next script ended. Takes no memory.
    pub(crate) fn end(&mut self, status: SetupScriptExecuteStatus<LiveSpec>)
        requires planned { length self.old.ended < self.old.planned }
        requires made { IsScriptStatusOf (script_record_of status) status }
        ensures { self.new
            ≡ record self.old { ended = self.old.ended ++ script_record_of status ∷ [] } }
    {
        self.statuses.push_reserved(status);
    }
}

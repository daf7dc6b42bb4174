// What is told of a unit that runs, on request.
use crate::copies::{copied_command, copied_output, copied_state, copied_test_info};
use nextest_config_resolution_commands::ScriptId;
use nextest_run_events_outcomes::{StressIndex, TestInfoResponse, UnitState};
use nextest_run_events_outputs::{ChildExecutionOutputDescription, LiveSpec};
use nextest_text::{Listing, Text};
use std::alloc::AllocError;

/// What is told of a unit that runs, on request.
#[derive(Debug)]
pub enum InfoResponse<'a> {
    /// Of a setup script.
    SetupScript(SetupScriptInfoResponse),
    /// Of a test.
    Test(TestInfoResponse<'a>),
}

// One call drops it, whoever holds it.
impl Drop for InfoResponse<'_> {
    fn drop(self) {
        match self {
            Self::SetupScript(_) => {}
            Self::Test(_) => {}
        }
    }
}

impl Clone for InfoResponse<'_> {
    ghost use Rattle.std.specs.Prelude.{◌≡◌};

    ghost is_clone = { λ original copy. copy ≡ original };

    fn clone(&self) -> Result<Self, AllocError> {
        match self {
            Self::SetupScript(script) => Ok(Self::SetupScript(script.clone()?)),
            Self::Test(test) => Ok(Self::Test(copied_test_info(test)?)),
        }
    }
}

/// What is told of a setup script that runs, on request.
#[derive(Debug)]
pub struct SetupScriptInfoResponse {
    /// Which sub-run it belongs to, if the run is a stress run.
    pub stress_index: Option<StressIndex>,
    /// The script's name.
    pub script_id: ScriptId,
    /// The program that it runs.
    pub program: Text,
    /// What the program is called with.
    pub args: Listing<Text>,
    /// What it is doing.
    pub state: UnitState,
    /// What it has written so far, and what went wrong.
    pub output: ChildExecutionOutputDescription<LiveSpec>,
}

// One call drops it, whoever holds it.
impl Drop for SetupScriptInfoResponse {
    fn drop(self) {
        let Self {
            stress_index: _,
            script_id: _,
            program: _,
            args: _,
            state: _,
            output: _,
        } = self;
    }
}

impl Clone for SetupScriptInfoResponse {
    ghost use Rattle.std.specs.Prelude.{◌≡◌};

    ghost is_clone = { λ original copy. copy ≡ original };

    fn clone(&self) -> Result<Self, AllocError> {
        let output = copied_output(&self.output)?;
        let (script_id, program, args) = copied_command(
            &self.script_id,
            &self.program,
            &self.args,
        )?;
        let state = copied_state(&self.state)?;
        Ok(SetupScriptInfoResponse {
            stress_index: self.stress_index,
            script_id,
            program,
            args,
            state,
            output,
        })
    }
}

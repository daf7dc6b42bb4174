// Copies of the parts of events.
ghost use Rattle.std.specs.Prelude.{◌≡◌, IfOk};
ghost use Rattle.nextest_run_events_reporting.specs.Parts.{IsScriptRunCopy, IsAttemptsCopy};

use crate::slot_assignment::TestSlotAssignment;
use nextest_config_resolution_commands::ScriptId;
use nextest_run_events_counters::ExecutionStatuses;
use nextest_run_events_outcomes::{TestInfoResponse, TestsNotSeen, UnitState};
use nextest_run_events_outputs::{
    ChildExecutionOutputDescription, ExecuteStatus, LiveSpec, SetupScriptExecuteStatus,
};
use nextest_text::{Listing, Text};
use std::alloc::AllocError;

// A text and a list of texts.
pub(crate) fn copied_texts(
    text: &Text,
    texts: &Listing<Text>,
) -> Result<(Text, Listing<Text>), AllocError>
    ensures text { IfOk result (λ copy. copy.0 ≡ text.now) }
    ensures texts { IfOk result (λ copy. copy.1 ≡ texts.now) }
{
    let text = text.clone()?;
    Ok((text, texts.clone()?))
}

// What is run as a setup script.
pub(crate) fn copied_command(
    script_id: &ScriptId,
    program: &Text,
    args: &Listing<Text>,
) -> Result<(ScriptId, Text, Listing<Text>), AllocError>
    ensures script_id { IfOk result (λ copy. copy.0 ≡ script_id.now) }
    ensures program { IfOk result (λ copy. copy.1 ≡ program.now) }
    ensures args { IfOk result (λ copy. copy.2 ≡ args.now) }
{
    let script_id = script_id.clone()?;
    let program = program.clone()?;
    Ok((script_id, program, args.clone()?))
}

// Where a test runs, and by which command.
pub(crate) fn copied_start(
    slot_assignment: &TestSlotAssignment,
    command_line: &Listing<Text>,
) -> Result<(TestSlotAssignment, Listing<Text>), AllocError>
    ensures slot_assignment { IfOk result (λ copy. copy.0 ≡ slot_assignment.now) }
    ensures command_line { IfOk result (λ copy. copy.1 ≡ command_line.now) }
{
    let slot_assignment = slot_assignment.clone()?;
    Ok((slot_assignment, command_line.clone()?))
}

// A run of a setup script.
pub(crate) fn copied_script_run(
    run: &SetupScriptExecuteStatus<LiveSpec>,
) -> Result<SetupScriptExecuteStatus<LiveSpec>, AllocError>
    ensures { IfOk result (λ copy. IsScriptRunCopy run.now copy) }
{
    run.clone()
}

// An attempt of a test.
pub(crate) fn copied_attempt(
    attempt: &ExecuteStatus<LiveSpec>,
) -> Result<ExecuteStatus<LiveSpec>, AllocError>
    ensures { IfOk result (λ copy. copy ≡ attempt.now) }
{
    attempt.clone()
}

// The attempts of a test.
pub(crate) fn copied_attempts(
    attempts: &ExecutionStatuses<LiveSpec>,
) -> Result<ExecutionStatuses<LiveSpec>, AllocError>
    ensures { IfOk result (λ copy. IsAttemptsCopy attempts.now copy) }
{
    attempts.clone()
}

// What a unit has written so far.
pub(crate) fn copied_output(
    output: &ChildExecutionOutputDescription<LiveSpec>,
) -> Result<ChildExecutionOutputDescription<LiveSpec>, AllocError>
    ensures { IfOk result (λ copy. copy ≡ output.now) }
{
    output.clone()
}

// What a unit is doing.
pub(crate) fn copied_state(state: &UnitState) -> Result<UnitState, AllocError>
    ensures { IfOk result (λ copy. copy ≡ state.now) }
{
    state.clone()
}

// What is told of a test that runs.
pub(crate) fn copied_test_info<'a>(
    test: &TestInfoResponse<'a>,
) -> Result<TestInfoResponse<'a>, AllocError>
    ensures { IfOk result (λ copy. copy ≡ test.now) }
{
    test.clone()
}

// Tests that a run didn't see, if there are any.
pub(crate) fn copied_tests_not_seen(
    tests: &Option<TestsNotSeen>,
) -> Result<Option<TestsNotSeen>, AllocError>
    ensures { IfOk result (λ copy. copy ≡ tests.now) }
{
    tests.clone()
}

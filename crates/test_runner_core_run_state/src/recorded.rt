// What a log tells of an end, kept as a status. It moves, and takes no memory.
ghost use Rattle.std.specs.Prelude.{◌≡◌};
ghost use Rattle.test_runner_core_run_state.specs.Statuses.{output_of, IsStatusOf, IsScriptStatusOf};

use nextest_run_events_outputs::{
    ChildExecutionOutputDescription, ChildOutputDescription, ChildSingleOutput,
    ChildStartErrorDescription, ExecuteStatus, LiveSpec, RetryData, SerializableError,
    SetupScriptExecuteStatus,
};
use nextest_run_events_results::{Record, RecordOutput};
use nextest_text::Listing;
use std::alloc::Global;
use std::time::Duration;

// The status of an attempt.
pub(crate) fn execute_status(
    alloc: Global,
    record: Record,
    retry_data: RetryData,
) -> ExecuteStatus<LiveSpec>
    ensures { IsStatusOf retry_data.attempt retry_data.total_attempts «record» result }
{
    ExecuteStatus {
        retry_data,
        output: execution_output(alloc, record.output),
        result: record.result,
        start_time: None,
        time_taken: Duration::from_nanos(record.nanos),
        is_slow: record.slow,
        delay_before_start: Duration::from_nanos(0),
        error_summary: None,
        output_error_slice: None,
    }
}

// The status of a setup script.
pub(crate) fn script_status(alloc: Global, record: Record) -> SetupScriptExecuteStatus<LiveSpec>
    ensures { IsScriptStatusOf «record» result }
{
    SetupScriptExecuteStatus {
        output: execution_output(alloc, record.output),
        result: record.result,
        start_time: None,
        time_taken: Duration::from_nanos(record.nanos),
        is_slow: record.slow,
        env_map: None,
        error_summary: None,
    }
}

// What was written, or why nothing could be started.
fn execution_output(
    alloc: Global,
    ending: RecordOutput,
) -> ChildExecutionOutputDescription<LiveSpec>
    ensures { result ≡ output_of ending }
{
    match ending {
        RecordOutput::Streams { out, err } => ChildExecutionOutputDescription::Output {
            result: None,
            output: ChildOutputDescription::Split {
                stdout: single_output(out),
                stderr: single_output(err),
            },
            errors: None,
        },
        RecordOutput::Message(message) => {
            let source = SerializableError::from_message_and_causes(message, Listing::new(alloc));
            ChildExecutionOutputDescription::StartError(ChildStartErrorDescription::Spawn {
                source,
            })
        }
    }
}

// A stream, if it was captured.
fn single_output(stream: Option<Listing<u8>>) -> Option<ChildSingleOutput>
    ensures { result ≡ stream }
{
    match stream {
        Some(bytes) => Some(ChildSingleOutput::from(bytes)),
        None => None,
    }
}

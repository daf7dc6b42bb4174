// What is told of a test that runs, on request.
use super::stress_count::StressIndex;
use super::unit_state::UnitState;
use nextest_run_events_outputs::{ChildExecutionOutputDescription, LiveSpec, RetryData};
use nextest_run_events_results::TestInstanceId;

/// What is told of a test that runs, on request.
#[derive(Clone, Debug, Drop)]
pub struct TestInfoResponse<'a> {
    /// Which sub-run it belongs to, if the run is a stress run.
    pub stress_index: Option<StressIndex>,
    /// Which test it is.
    pub test_instance: TestInstanceId<'a>,
    /// Which of its attempts runs.
    pub retry_data: RetryData,
    /// What it is doing.
    pub state: UnitState,
    /// What it has written so far, and what went wrong.
    pub output: ChildExecutionOutputDescription<LiveSpec>,
}

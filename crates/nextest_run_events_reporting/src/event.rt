// What a reporter is told.
use crate::kind::TestEventKind;
use nextest_run_events_outputs::{Boxed, EventTime};
use std::time::Duration;

/// What a reporter is told.
#[derive(Clone, Debug, Drop)]
pub enum ReporterEvent<'a> {
    /// Some time went by, and nothing else.
    Tick,
    /// Something happened in the run.
    Test(Boxed<TestEvent<'a>>),
}

/// What happened in a run, and when.
#[derive(Clone, Debug, Drop)]
pub struct TestEvent<'a> {
    /// When it happened.
    pub timestamp: EventTime,
    /// How long the run had taken by then.
    pub elapsed: Duration,
    /// What happened.
    pub kind: TestEventKind<'a>,
}

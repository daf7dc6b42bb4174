// What happens in a run.
use nextest_run_events_results::{CancelReason, Record};

/// What happens in a run. Scripts and tests are named by their places in the plan, from 0; a place
/// past its end stands for one that the plan doesn't have.
#[derive(Clone, Debug, PartialEq, Eq)]
pub enum Event {
    /// A setup script ended.
    ScriptEnded {
        /// The script's place.
        script: usize,
        /// How it ended.
        record: Record,
    },
    /// An attempt of a test started.
    Started {
        /// The test's place.
        test: usize,
    },
    /// The attempt of a test that ran ended.
    Ended {
        /// The test's place.
        test: usize,
        /// How it ended.
        record: Record,
    },
    /// The run was told to stop.
    Stopped {
        /// Why.
        reason: CancelReason,
    },
}

// One call drops it, whoever holds it.
impl Drop for Event {
    fn drop(self) {
        match self {
            Self::ScriptEnded {
                script: _,
                record: _,
            } => {}
            Self::Started { test: _ } => {}
            Self::Ended { test: _, record: _ } => {}
            Self::Stopped { reason: _ } => {}
        }
    }
}

// What a unit is doing.
ghost use Rattle.std.specs.Prelude.{◌≡◌};
ghost use Rattle.nextest_run_events_outcomes.specs.State.{has_valid_output};

use super::terminate::UnitTerminatingState;
use nextest_run_events_results::ExecutionResultDescription;
use std::time::Duration;

/// What a unit is doing.
#[derive(Clone, Debug, Drop)]
pub enum UnitState {
    /// Its process runs.
    Running {
        /// The id of the process.
        pid: u32,
        /// How long it has run.
        time_taken: Duration,
        /// After how long it counted as slow, if it does.
        slow_after: Option<Duration>,
    },
    /// Its process ended, and it is waited for its handles to be closed.
    Exiting {
        /// The id of the process.
        pid: u32,
        /// How long it ran.
        time_taken: Duration,
        /// After how long it counted as slow, if it does.
        slow_after: Option<Duration>,
        /// How it ended if no handle stays open, where that is known.
        tentative_result: Option<ExecutionResultDescription>,
        /// How long its handles have been waited for.
        waiting_duration: Duration,
        /// How long its handles are still waited for before it counts as leaky.
        remaining: Duration,
    },
    /// Its runner is ending it.
    Terminating(UnitTerminatingState),
    /// It ended.
    Exited {
        /// How.
        result: ExecutionResultDescription,
        /// How long it ran.
        time_taken: Duration,
        /// After how long it counted as slow, if it does.
        slow_after: Option<Duration>,
    },
    /// It failed, and its next attempt is waited for.
    DelayBeforeNextAttempt {
        /// How the attempt before ended.
        previous_result: ExecutionResultDescription,
        /// Whether the attempt before counts as slow.
        previous_slow: bool,
        /// How long the next attempt has been waited for.
        waiting_duration: Duration,
        /// How long the next attempt is still waited for.
        remaining: Duration,
    },
}

impl UnitState {
    /// Whether there is output of the attempt that the state tells of: always, but while the next
    /// attempt is waited for.
    pub fn has_valid_output(&self) -> bool
        ensures { result ≡ has_valid_output self.now }
    {
        match self {
            UnitState::Running { .. }
            | UnitState::Exiting { .. }
            | UnitState::Terminating(_)
            | UnitState::Exited { .. } => true,
            UnitState::DelayBeforeNextAttempt { .. } => false,
        }
    }
}

// How far a test is.
use nextest_run_events_results::CancelReason;

/// How far a test is.
#[derive(Clone, Copy, Debug, PartialEq, Eq)]
pub enum Mark {
    /// No attempt started.
    Waiting,
    /// An attempt runs.
    Running,
    /// An attempt failed, and another may follow.
    Between,
    /// It is over, under the reason that stood then, if one did.
    Finished(Option<CancelReason>),
}

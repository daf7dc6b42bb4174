// Why an event can't happen.
use thiserror::Error;

/// Why an event can't happen in the state in which it comes.
#[derive(Clone, Copy, Debug, PartialEq, Eq, Hash, Error)]
pub enum StepRefusal {
    /// The plan has no such script.
    #[error("the plan has no such script")]
    UnknownScript,
    /// The plan has no such test.
    #[error("the plan has no such name among its tests")]
    UnknownTest,
    /// The run is stopped: no script ends and no attempt starts any more.
    #[error("the run is stopped")]
    Stopped,
    /// The script isn't the next one.
    #[error("the script isn't the next one")]
    OutOfOrder,
    /// Not all scripts ended yet.
    #[error("not all scripts ended yet")]
    ScriptsPending,
    /// An attempt of the test runs already.
    #[error("an attempt of it runs already")]
    Running,
    /// The test is over.
    #[error("its attempts are over")]
    Finished,
    /// No attempt of the test runs.
    #[error("no attempt of it runs")]
    NotRunning,
    /// The reason is one that only the run itself gives.
    #[error("only the run itself gives this reason")]
    InnerReason,
}

// What a step finished.

/// What a step finished: the test of its attempt, and, where it stopped the run, those that were
/// between two attempts.
#[derive(Clone, Copy, Debug, PartialEq, Eq)]
pub struct Finished {
    /// The place of the test whose attempt ended, where that finished the test.
    pub ended: Option<usize>,
    /// Whether the step stopped the run. Behind `ended` that finishes each test that was between
    /// two attempts.
    pub stops: bool,
}

// Which statuses of tests are shown.

/// Which statuses are shown while tests run. A level shows what every level below it shows, and its
/// own besides.
#[derive(Clone, Copy, Debug, PartialEq, Eq, PartialOrd, Ord)]
pub enum StatusLevel {
    /// Nothing.
    None,
    /// Tests that fail.
    Fail,
    /// Tests that are tried again.
    Retry,
    /// Slow tests.
    Slow,
    /// Tests that leave handles open.
    Leak,
    /// Tests that pass.
    Pass,
    /// Tests that are skipped.
    Skip,
    /// Whatever there is.
    All,
}

/// Which statuses are shown at the end of a run. A level shows what every level below it shows, and
/// its own besides.
#[derive(Clone, Copy, Debug, PartialEq, Eq, PartialOrd, Ord)]
pub enum FinalStatusLevel {
    /// Nothing.
    None,
    /// Tests that fail.
    Fail,
    /// Tests that passed on a later attempt than their first.
    Flaky,
    /// Slow tests.
    Slow,
    /// Tests that are skipped.
    Skip,
    /// Tests that leave handles open.
    Leak,
    /// Tests that pass.
    Pass,
    /// Whatever there is.
    All,
}

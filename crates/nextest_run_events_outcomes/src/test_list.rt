// Tests by their names.

use nextest_run_events_results::OwnedTestInstanceId;
use nextest_text::Listing;

/// The tests of a run.
#[derive(Clone, Debug, PartialEq, Eq, Drop)]
pub struct TestList {
    /// The tests in the run's order.
    pub tests: Listing<OwnedTestInstanceId>,
}

/// Tests that a run was to have and didn't see.
#[derive(Clone, Debug, Drop)]
pub struct TestsNotSeen {
    /// Those that are named.
    pub not_seen: Listing<OwnedTestInstanceId>,
    /// How many there are, named or not.
    pub total_not_seen: usize,
}

// The listed binaries, the selected tests, and those that are left out.
use nextest_run_events_results::OwnedTestInstanceId;
use nextest_text::{Listing, Text, Texts};
use test_runner_core_workspace::Binary;

/// The selected tests of a binary.
#[derive(Drop)]
pub struct SelectedTests<'w> {
    /// The binary.
    pub binary: &'w Binary,
    /// The names of its selected tests, as they were listed.
    pub names: Texts,
}

/// The listed binaries, the selected tests, and those that are left out.
#[derive(Drop)]
pub struct Selection<'w> {
    /// The ids of the listed binaries, in the workspace's order.
    pub listed: Listing<Text>,
    /// The selected tests of each listed binary, in the workspace's order.
    pub tests: Vec<SelectedTests<'w>>,
    /// The tests that are listed and not selected, as they were listed.
    pub skipped: Listing<OwnedTestInstanceId>,
}

// Where a test runs.
use nextest_config_elements_identifiers::TestGroup;

/// Where a test runs: the places that it has among the tests that run beside it, through all of its
/// attempts.
#[derive(Clone, Debug, PartialEq, Eq)]
pub struct TestSlotAssignment {
    /// Its place among all of them, the least that was free.
    pub global_slot: u64,
    /// Its place among those of its group, none in the global group.
    pub group_slot: Option<u64>,
    /// The group that it is in.
    pub test_group: TestGroup,
}

// One call drops it, whoever holds it.
impl Drop for TestSlotAssignment {
    fn drop(self) {
        let Self {
            global_slot: _,
            group_slot: _,
            test_group: _,
        } = self;
    }
}

// A selected test.
use nextest_config_elements_choices::{FailWeight, FlakyResult};

/// A selected test as a run sees it.
#[derive(Clone, Copy, Debug, PartialEq, Eq)]
pub struct RunTest {
    /// How many attempts it has at most.
    pub tries: u32,
    /// What becomes of it where a later attempt than the first passes.
    pub flaky: FlakyResult,
    /// What it weighs if it fails.
    pub weight: FailWeight,
}

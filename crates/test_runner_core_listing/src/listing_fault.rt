// Why tests are refused.
use nextest_text::Text;
use thiserror::Error;

/// Why the tests of a binary weren't listed.
#[derive(Debug, PartialEq, Eq, Drop, Error)]
pub enum ListingFault {
    /// The binary can't list them, for this cause.
    #[error("a binary can't list its tests: {0}")]
    ListFault(Text),
    /// A test has no name.
    #[error("one of the tests has no name")]
    EmptyTestName,
    /// A test's name has a tab, a line feed or a carriage return in it.
    #[error("the name of one of the tests has a tab or a line end in it")]
    BadTestName,
    /// Two tests of the binary have one name.
    #[error("two tests of a binary have one name")]
    RepeatedTest,
}

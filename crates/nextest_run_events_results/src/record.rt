// The record of an end.
use super::result::ExecutionResultDescription;
use nextest_text::{Listing, Text};

/// What a script or an attempt wrote, or why it could not be started.
#[derive(Clone, Debug, PartialEq, Eq, Drop)]
pub enum RecordOutput {
    /// What it wrote: `None` for a stream that was not captured, no bytes for one that was and
    /// stayed empty.
    Streams {
        /// Its standard output.
        out: Option<Listing<u8>>,
        /// Its standard error.
        err: Option<Listing<u8>>,
    },
    /// Why it could not be started.
    Message(Text),
}

/// How a script or an attempt ended.
#[derive(Clone, Debug, PartialEq, Eq, Drop)]
pub struct Record {
    /// How it ended.
    pub result: ExecutionResultDescription,
    /// Whether it was slow.
    pub slow: bool,
    /// How long it took, in nanoseconds.
    pub nanos: u64,
    /// What it wrote.
    pub output: RecordOutput,
}

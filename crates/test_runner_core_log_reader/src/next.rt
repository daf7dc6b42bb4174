// What a call found.
use super::fault::LineFault;

/// What a call of `LogLines::next` found.
#[derive(Clone, Copy, Debug, PartialEq, Eq)]
pub enum Next {
    /// A line, which `LogLines::line` lends.
    Line,
    /// There is no further line, for this reason.
    Refused(LineFault),
    /// The log ended behind its last line.
    End,
}

// What the bytes that wait tell.
#[derive(Clone, Copy)]
pub(super) enum Scan {
    Line,
    Refused(LineFault),
    Waits,
}

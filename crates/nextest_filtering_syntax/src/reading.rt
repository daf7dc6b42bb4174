// What reading a text answers.
use crate::tree::ParsedExpr;
use nextest_filtering_arguments::ParseSingleError;
use std::alloc::AllocError;
use thiserror::Error;

/// What a text was read as: the tree, where one was made, and its faults, in the order in which
/// they were found. A text without faults is its tree; with faults the tree is what was made of the
/// text all the same.
#[derive(Drop)]
pub struct Reading {
    /// The tree, where one was made.
    pub tree: Option<ParsedExpr>,
    /// The faults, in the order in which they were found.
    pub faults: Vec<ParseSingleError>,
}

/// Why a text gets no tree.
#[derive(Debug, Drop, Error)]
pub enum ParseError {
    /// For these faults, in the order in which they were found.
    #[error("the text is no filterset")]
    Faults(Vec<ParseSingleError>),
    /// There is no memory.
    #[error("out of memory")]
    OutOfMemory,
}

impl From<AllocError> for ParseError {
    ghost use Rattle.std.specs.Prelude.{◌≡◌};
    ghost use Rattle.nextest_filtering_syntax.specs.declared.reading.ParseError.TheVariants.{OutOfMemory};

    ghost from_gives = { λ _ error. error ≡ OutOfMemory };

    fn from(_: AllocError) -> ParseError {
        ParseError::OutOfMemory
    }
}

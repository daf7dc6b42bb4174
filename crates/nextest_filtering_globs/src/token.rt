// The tokens of a glob.
use nextest_text::Listing;

/// The characters from `first` to `last`, both included.
#[derive(Clone, Copy, Debug, PartialEq, Eq)]
pub struct ClassRange {
    /// The least one.
    pub first: char,
    /// The greatest one.
    pub last: char,
}

/// A part of a glob, which matches a run of characters; or a sign of the braces around
/// alternatives.
#[derive(Clone, Debug, PartialEq, Eq, Drop)]
pub enum GlobToken {
    /// Just this character.
    Literal(char),
    /// Any one character.
    Any,
    /// Any run of characters.
    ZeroOrMore,
    /// One character that is in one of the ranges; where it is negated, one that is in none.
    Class {
        /// Whether the characters of the ranges are those that don't match.
        negated: bool,
        /// The ranges.
        ranges: Listing<ClassRange>,
    },
    /// The brace in front of alternatives.
    Open,
    /// What stands between two alternatives.
    Or,
    /// The brace behind alternatives.
    Close,
}

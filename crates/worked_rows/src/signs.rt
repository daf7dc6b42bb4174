// The signs that stand for control characters in a row.
use std::alloc::{AllocError, Global};

fn meant_by(sign: char) -> char {
    match sign {
        '␉' => '\t',
        '␊' => '\n',
        '␍' => '\r',
        other => other,
    }
}

fn sign_of(character: char) -> char {
    match character {
        '\t' => '␉',
        '\n' => '␊',
        '\r' => '␍',
        other => other,
    }
}

// The text that a part of a row stands for.
pub(crate) fn read_signs(alloc: Global, part: &str) -> Result<String, AllocError> {
    part.chars().map(meant_by).collect(alloc)
}

// The part of a row that stands for a text.
pub(crate) fn written_in_signs(alloc: Global, text: &str) -> Result<String, AllocError> {
    text.chars().map(sign_of).collect(alloc)
}

// Which characters a token fits.
ghost use Rattle.std.specs.Prelude.{◌≡◌};
ghost use Rattle.nextest_filtering_globs.specs.Inside.{fits, is_in_some, is_single};

use super::token::{ClassRange, GlobToken};

// Whether the character is in one of the ranges.
fn is_in_some(ranges: &[ClassRange], c: char) -> bool
    ensures { result ≡ is_in_some c ranges.now }
{
    for range in ranges {
        if range.first <= c && c <= range.last {
            return true;
        }
    }
    false
}

/// Whether the token is one that matches one character, and matches this one.
pub fn fits(token: &GlobToken, c: char) -> bool
    ensures { result ≡ fits token.now c }
{
    // Most tokens are such ones, and are told by one comparison.
    if let GlobToken::Literal(wanted) = token {
        return c == *wanted;
    }
    match token {
        GlobToken::Any => true,
        GlobToken::Class { negated, ranges } => is_in_some(ranges.as_slice(), c) != *negated,
        _ => false,
    }
}

/// Whether the token is one that matches one character.
pub fn is_single(token: &GlobToken) -> bool
    ensures { result ≡ is_single token.now }
{
    matches!(
        token,
        GlobToken::Literal(_) | GlobToken::Any | GlobToken::Class { .. }
    )
}

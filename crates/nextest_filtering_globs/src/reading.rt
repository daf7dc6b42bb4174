// Reading the tokens of a glob.
ghost use Rattle.std.specs.Prelude.{◌≡◌, ◌+◌, ◌<◌, ◌≤◌, ◌^◌, ◌∷◌, nat_lt, length, IfOk};
ghost use Rattle.nextest_filtering_globs.specs.Signs.{backslash, opening_bracket};
ghost use Rattle.nextest_filtering_globs.specs.Syntax.{Spells, depth_behind};
ghost use Rattle.nextest_filtering_globs.specs.Reading.{Reads, ReadsWhole};

use super::class::read_class;
use super::construct_error::GlobConstructError;
use super::token::GlobToken;
use nextest_text::Listing;
use std::alloc::Global;

// A character behind a backslash.
fn read_escaped(inside: bool, text: &[char]) -> Result<(GlobToken, &[char]), GlobConstructError>
    ensures exact { Reads (λ read. (read.0, read.1.now))
        (λ token rest. Spells inside token (backslash ∷ text.now) rest) result }
    ensures left { IfOk result (λ read. length read.1.now ≤ length text.now) }
{
    match text.split_first() {
        None => Err(GlobConstructError::InvalidGlob),
        Some((c, rest)) => Ok((GlobToken::Literal(*c), rest)),
    }
}

// A class behind its opening bracket.
fn read_class_token(
    alloc: Global,
    inside: bool,
    text: &[char],
) -> Result<(GlobToken, &[char]), GlobConstructError>
    ensures exact { Reads (λ read. (read.0, read.1.now))
        (λ token rest. Spells inside token (opening_bracket ∷ text.now) rest) result }
    ensures left { IfOk result (λ read. length read.1.now ≤ length text.now) }
{
    let (negated, ranges, rest) = read_class(alloc, text)?;
    let ranges = Listing::from(ranges);
    Ok((GlobToken::Class { negated, ranges }, rest))
}

// The token that begins with `first`, outside or inside of braces.
fn read_token(
    alloc: Global,
    inside: bool,
    first: char,
    behind: &[char],
) -> Result<(GlobToken, &[char]), GlobConstructError>
    ensures exact { Reads (λ read. (read.0, read.1.now))
        (λ token rest. Spells inside token (first ∷ behind.now) rest) result }
    ensures left { IfOk result (λ read. length read.1.now ≤ length behind.now) }
{
    match first {
        '?' => Ok((GlobToken::Any, behind)),
        '*' => Ok((GlobToken::ZeroOrMore, behind)),
        '\\' => read_escaped(inside, behind),
        '[' => read_class_token(alloc, inside, behind),
        '{' => Ok((GlobToken::Open, behind)),
        '}' if inside => Ok((GlobToken::Close, behind)),
        '}' => Err(GlobConstructError::InvalidGlob),
        ',' if inside => Ok((GlobToken::Or, behind)),
        _ => Ok((GlobToken::Literal(first), behind)),
    }
}

// How many braces are open behind a token.
fn depth_behind(depth: usize, token: &GlobToken) -> usize
    requires { depth + 1 < 2 ^ 64 }
    ensures { result ≡ depth_behind depth token.now }
{
    match token {
        GlobToken::Open => depth + 1,
        GlobToken::Close => depth.saturating_sub(1),
        _ => depth,
    }
}

/// The tokens that a whole text spells.
pub fn read_tokens(alloc: Global, text: &[char]) -> Result<Vec<GlobToken>, GlobConstructError>
    ensures { ReadsWhole text.now result }
{
    let _count = text.len();
    let mut tokens = Vec::new(alloc);
    let mut depth = 0;
    let mut left = text;
    while let Some((first, behind)) = left.split_first() {
        let (token, rest) = read_token(alloc, depth > 0, *first, behind)?;
        depth = depth_behind(depth, &token);
        tokens.push(token)?;
        left = rest;
    }
    if depth == 0 {
        Ok(tokens)
    } else {
        Err(GlobConstructError::InvalidGlob)
    }
}

// Alternatives at the end of a glob whose tokens match one character each.
ghost use Rattle.std.specs.Prelude.{◌≡◌, ◌++◌, ◌∷◌, [], List, ⊤, drop, length, ◌≤◌, MatchOption};
ghost use Rattle.nextest_filtering_globs.specs.Inside.{is_plain, ArePlain, AreSingle, Leaves, in_braces};
ghost use Rattle.nextest_filtering_globs.specs.Meaning.{Matches};
ghost use Rattle.nextest_filtering_globs.specs.declared.token.GlobToken.{GlobToken};
ghost use Rattle.nextest_filtering_globs.specs.declared.token.GlobToken.TheVariants as token;

use super::character::Character;
use super::edges::before_last;
use super::fitting::is_single;
use super::token::GlobToken;

// Whether the token is one that matches one character, or stands between two alternatives.
fn is_plain(token: &GlobToken) -> bool
    ensures { result ≡ is_plain token.now }
{
    matches!(
        token,
        GlobToken::Literal(_) | GlobToken::Any | GlobToken::Class { .. } | GlobToken::Or
    )
}

// The place from which on each token is one that matches one character, or stands between two
// alternatives.
fn plain_from(tokens: &[GlobToken]) -> usize
    ensures within { result ≤ length tokens.now }
    ensures plain { ArePlain (drop result tokens.now) }
{
    for place in (0..tokens.len()).rev() {
        if !is_plain(&tokens[place]) {
            return place + 1;
        }
    }
    0
}

/// The tokens in front of alternatives at the end, and those between their braces, where each of
/// these matches one character, or stands between two alternatives.
pub fn split_alternatives(tokens: &[GlobToken]) -> Option<(&[GlobToken], &[GlobToken])>
    ensures { MatchOption result ⊤
        (λ split. (tokens.now ≡ split.0.now ++ in_braces split.1.now) × ArePlain split.1.now) }
{
    let Some((GlobToken::Close, left)) = tokens.split_last() else {
        return None;
    };
    let (front, alternatives) = left.split_at(plain_from(left));
    let Some((GlobToken::Open, front)) = front.split_last() else {
        return None;
    };
    Some((front, alternatives))
}

/// The tokens of the first alternative, and those behind the sign that ends it, where there is one.
pub fn first_alternative(tokens: &[GlobToken]) -> (&[GlobToken], Option<&[GlobToken]>)
    requires { ArePlain tokens.now }
    ensures singles { AreSingle result.0.now }
    ensures behind { MatchOption result.1 (tokens.now ≡ result.0.now)
        (λ more. (tokens.now ≡ result.0.now ++ token.Or ∷ more.now) × ArePlain more.now) }
{
    for (place, token) in tokens.iter().enumerate() {
        if !is_single(token) {
            return (&tokens[..place], Some(&tokens[place + 1..]));
        }
    }
    (tokens, None)
}

/// What is left of the text in front of its last characters, where the tokens fit these one by one.
pub fn before_word<'a, C: Character>(word: &[GlobToken], text: &'a [C]) -> Option<&'a [C]>
    requires { AreSingle word.now }
    ensures { MatchOption result
        ((front : List GlobToken) → Matches (front ++ word.now) (C.codes text.now) → ⊥)
        (λ rest. (front : List GlobToken)
        → Leaves (front ++ word.now) (C.codes text.now) front (C.codes rest.now)) }
{
    let mut left = word;
    let mut rest = text;
    while let Some((token, more)) = left.split_last() {
        let Some(before) = before_last(token, rest) else {
            return None;
        };
        left = more;
        rest = before;
    }
    Some(rest)
}

/// Whether each token behind the first one matches one character. Nothing is promised of the
/// answer, and only time depends on it.
pub fn has_single_end(tokens: &[GlobToken]) -> bool {
    for token in tokens.iter().skip(1) {
        if !is_single(token) {
            return false;
        }
    }
    true
}

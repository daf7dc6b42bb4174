// Tokens at the beginning and the end of a glob that match one character each, and the characters
// there.
ghost use Rattle.std.specs.Prelude.{◌≡◌, ℕ, List, [], ◌∷◌, ◌++◌, MatchOption, IsTrue};
ghost use Rattle.nextest_filtering_globs.specs.Inside.{fits, Leaves};
ghost use Rattle.nextest_filtering_globs.specs.Meaning.{Matches};

use super::character::Character;
use super::fitting::{fits, is_single};
use super::token::GlobToken;

/// What is left of the text behind its first character, where the token fits that.
pub fn behind_first<'a, C: Character>(token: &GlobToken, text: &'a [C]) -> Option<&'a [C]>
    ensures { MatchOption result
        ((c : ℕ) (rest : List ℕ) → C.codes text.now ≡ c ∷ rest → IsTrue (fits token.now c) → ⊥)
        (λ rest. (c : ℕ) × (C.codes text.now ≡ c ∷ C.codes rest.now) × IsTrue (fits token.now c)) }
{
    let (c, rest) = text.split_first()?;
    if fits(token, c.character()) {
        Some(rest)
    } else {
        None
    }
}

/// What is left of the tokens and of the text behind the first tokens that match one character
/// each, where these fit the first characters. `None` says that they don't, so the tokens don't
/// match the text.
pub fn behind_singles<'a, C: Character>(
    tokens: &'a [GlobToken],
    text: &'a [C],
) -> Option<(&'a [GlobToken], &'a [C])>
    ensures { MatchOption result
        (Matches tokens.now (C.codes text.now) → ⊥)
        (λ left. Leaves tokens.now (C.codes text.now) left.0.now (C.codes left.1.now)) }
{
    let mut left = tokens;
    let mut rest = text;
    while let Some((token, more)) = left.split_first() {
        let Some(behind) = behind_first(token, rest) else {
            if is_single(token) {
                return None;
            }
            break;
        };
        left = more;
        rest = behind;
    }
    Some((left, rest))
}

/// What is left of the text in front of its last character, where the token fits that.
pub fn before_last<'a, C: Character>(token: &GlobToken, text: &'a [C]) -> Option<&'a [C]>
    ensures { MatchOption result
        ((rest : List ℕ) (c : ℕ) → C.codes text.now ≡ rest ++ c ∷ []
        → IsTrue (fits token.now c) → ⊥)
        (λ rest. (c : ℕ) × (C.codes text.now ≡ C.codes rest.now ++ c ∷ [])
        × IsTrue (fits token.now c)) }
{
    match text {
        [rest @ .., c] if fits(token, c.character()) => Some(rest),
        _ => None,
    }
}

/// What is left of the tokens and of the text in front of the last tokens that match one character
/// each, where these fit the last characters. `None` says that they don't, so the tokens don't
/// match the text.
pub fn before_singles<'a, C: Character>(
    tokens: &'a [GlobToken],
    text: &'a [C],
) -> Option<(&'a [GlobToken], &'a [C])>
    ensures { MatchOption result
        (Matches tokens.now (C.codes text.now) → ⊥)
        (λ left. Leaves tokens.now (C.codes text.now) left.0.now (C.codes left.1.now)) }
{
    let mut left = tokens;
    let mut rest = text;
    while let [more @ .., token] = left {
        let Some(before) = before_last(token, rest) else {
            if is_single(token) {
                return None;
            }
            break;
        };
        left = more;
        rest = before;
    }
    Some((left, rest))
}

/// What is left of the tokens and of the text between their ends, where tokens there that match one
/// character each fit the characters there. `None` says that they don't, so the tokens don't match
/// the text.
pub fn within_ends<'a, C: Character>(
    tokens: &'a [GlobToken],
    text: &'a [C],
) -> Option<(&'a [GlobToken], &'a [C])>
    ensures { MatchOption result
        (Matches tokens.now (C.codes text.now) → ⊥)
        (λ left. Leaves tokens.now (C.codes text.now) left.0.now (C.codes left.1.now)) }
{
    let (left, rest) = behind_singles(tokens, text)?;
    before_singles(left, rest)
}

// Words of tokens that match one character each, between two asterisks.
ghost use Rattle.std.specs.Prelude.{◌≤◌, ◌++◌, ◌∷◌, [], List, ⊤, length, take, MatchOption};
ghost use Rattle.nextest_filtering_globs.specs.Inside.{AreSingle, GoesOn, IsAhead, IsFound, IsWord, Leaves};
ghost use Rattle.nextest_filtering_globs.specs.Meaning.{Matches};
ghost use Rattle.nextest_filtering_globs.specs.declared.token.GlobToken.{GlobToken};
ghost use Rattle.nextest_filtering_globs.specs.declared.token.GlobToken.TheVariants as token;

use super::character::Character;
use super::edges::behind_first;
use super::fitting::is_single;
use super::token::GlobToken;

// How many of the first tokens match one character each.
fn word_len(tokens: &[GlobToken]) -> usize
    ensures within { result ≤ length tokens.now }
    ensures singles { AreSingle (take result tokens.now) }
{
    for (place, token) in tokens.iter().enumerate() {
        if !is_single(token) {
            return place;
        }
    }
    tokens.len()
}

// The word between two asterisks, and the tokens from the second one on; where the tokens begin
// with an asterisk, and each that stands in front of the next one matches one character.
fn split_word(tokens: &[GlobToken]) -> Option<(&[GlobToken], &[GlobToken])>
    ensures { MatchOption result ⊤ (λ split. IsWord tokens.now split.0.now split.1.now) }
{
    let Some((GlobToken::ZeroOrMore, behind)) = tokens.split_first() else {
        return None;
    };
    let (word, left) = behind.split_at(word_len(behind));
    let Some((GlobToken::ZeroOrMore, _)) = left.split_first() else {
        return None;
    };
    Some((word, left))
}

// What is left of the text behind its first characters, where the tokens fit these one by one.
fn behind_word<'a, C: Character>(word: &[GlobToken], text: &'a [C]) -> Option<&'a [C]>
    requires { AreSingle word.now }
    ensures { MatchOption result
        ((more : List GlobToken) → Matches (word.now ++ more) (C.codes text.now) → ⊥)
        (λ rest. GoesOn word.now (C.codes text.now) [] (C.codes rest.now)) }
{
    let mut left = word;
    let mut rest = text;
    while let Some((token, more)) = left.split_first() {
        let Some(behind) = behind_first(token, rest) else {
            return None;
        };
        left = more;
        rest = behind;
    }
    Some(rest)
}

// The text from the first place on where the letter stands, or nothing of it.
fn from_letter<C: Character>(letter: char, text: &[C]) -> &[C]
    ensures within { length result.now ≤ length text.now }
    ensures ahead { IsAhead (token.Literal letter ∷ []) (C.codes text.now) (C.codes result.now) }
{
    let mut rest = text;
    while let Some((c, later)) = rest.split_first() {
        if c.character() == letter {
            return rest;
        }
        rest = later;
    }
    rest
}

// The text from a place on in front of which the word stands nowhere in it.
fn from_first<'a, C: Character>(word: &[GlobToken], text: &'a [C]) -> &'a [C]
    ensures within { length result.now ≤ length text.now }
    ensures ahead { IsAhead word.now (C.codes text.now) (C.codes result.now) }
{
    match word.split_first() {
        Some((GlobToken::Literal(letter), _)) => from_letter(*letter, text),
        _ => text,
    }
}

// What is left of the text behind the first place where the word stands in it.
fn behind_found<'a, C: Character>(word: &[GlobToken], text: &'a [C]) -> Option<&'a [C]>
    requires { AreSingle word.now }
    ensures { MatchOption result
        ((more : List GlobToken)
        → Matches (token.ZeroOrMore ∷ (word.now ++ more)) (C.codes text.now) → ⊥)
        (λ rest. IsFound word.now (C.codes text.now) (C.codes rest.now)) }
{
    let mut rest = from_first(word, text);
    loop {
        if let Some(behind) = behind_word(word, rest) {
            return Some(behind);
        }
        let Some((_, later)) = rest.split_first() else {
            return None;
        };
        rest = from_first(word, later);
    }
}

/// What is left of the tokens and of the text behind the first words between asterisks, each at the
/// first place where it stands in the text: an asterisk takes up what lies before any later one.
/// `None` says that some word stands nowhere, so the tokens don't match the text.
pub fn behind_words<'a, C: Character>(
    tokens: &'a [GlobToken],
    text: &'a [C],
) -> Option<(&'a [GlobToken], &'a [C])>
    ensures { MatchOption result
        (Matches tokens.now (C.codes text.now) → ⊥)
        (λ left. Leaves tokens.now (C.codes text.now) left.0.now (C.codes left.1.now)) }
{
    let mut left = tokens;
    let mut rest = text;
    while let Some((word, more)) = split_word(left) {
        let Some(behind) = behind_found(word, rest) else {
            return None;
        };
        left = more;
        rest = behind;
    }
    Some((left, rest))
}

// Whether tokens match a text.
ghost use Rattle.std.specs.Prelude.{◌↔◌, ◌++◌, ℕ, List, IfOk, IsTrue};
ghost use Rattle.nextest_filtering_globs.specs.Meaning.{Matches};
ghost use Rattle.nextest_filtering_globs.specs.Inside.{in_braces, ArePlain, AreSingle, IsBalanced};

use super::alternatives::{before_word, first_alternative, has_single_end, split_alternatives};
use super::character::Character;
use super::edges::{before_singles, within_ends};
use super::places::{begin, has_last, read_each};
use super::scratch::Scratch;
use super::token::GlobToken;
use super::walk::take_all;
use super::words::behind_words;
use std::alloc::AllocError;

// Whether the tokens match the whole text, by sets of places.
fn is_walked(
    tokens: &[GlobToken],
    text: &[char],
    current: &mut Vec<bool>,
    stack: &mut Vec<bool>,
) -> Result<bool, AllocError>
    requires { IsBalanced tokens.now }
    ensures { IfOk result (λ answer. IsTrue answer ↔ Matches tokens.now text.now) }
{
    begin(text, current)?;
    stack.clear();
    take_all(tokens, text, current.as_mut_slice(), stack)?;
    Ok(has_last(current.as_slice()))
}

// Whether the tokens are just an asterisk, which matches every text.
fn is_asterisk(tokens: &[GlobToken]) -> bool
    ensures { IsTrue result → (text : List ℕ) → Matches tokens.now text }
{
    match tokens.split_first() {
        Some((GlobToken::ZeroOrMore, more)) => more.is_empty(),
        _ => false,
    }
}

// Whether the tokens match the whole text. Where there is none, or just an asterisk, no set of
// places is made.
fn is_left_matched<C: Character>(
    tokens: &[GlobToken],
    text: &[C],
    scratch: &mut Scratch,
) -> Result<bool, AllocError>
    requires { IsBalanced tokens.now }
    ensures { IfOk result (λ answer. IsTrue answer ↔ Matches tokens.now (C.codes text.now)) }
{
    if tokens.is_empty() {
        return Ok(text.is_empty());
    }
    if is_asterisk(tokens) {
        return Ok(true);
    }
    read_each(text, &mut scratch.characters)?;
    is_walked(
        tokens,
        scratch.characters.as_slice(),
        &mut scratch.current,
        &mut scratch.stack,
    )
}

// Whether the tokens match the whole text, with these of one character each at their end.
fn is_ended_matched<C: Character>(
    front: &[GlobToken],
    alternative: &[GlobToken],
    text: &[C],
    scratch: &mut Scratch,
) -> Result<bool, AllocError>
    requires balanced { IsBalanced front.now }
    requires singles { AreSingle alternative.now }
    ensures { IfOk result
        (λ answer. IsTrue answer ↔ Matches (front.now ++ alternative.now) (C.codes text.now)) }
{
    let Some(rest) = before_word(alternative, text) else {
        return Ok(false);
    };
    let Some((left, rest)) = before_singles(front, rest) else {
        return Ok(false);
    };
    is_left_matched(left, rest, scratch)
}

// Whether the tokens match the whole text, with one of the alternatives at their end.
fn is_some_matched<C: Character>(
    front: &[GlobToken],
    alternatives: &[GlobToken],
    text: &[C],
    scratch: &mut Scratch,
) -> Result<bool, AllocError>
    requires balanced { IsBalanced front.now }
    requires plain { ArePlain alternatives.now }
    ensures { IfOk result (λ answer.
        IsTrue answer ↔ Matches (front.now ++ in_braces alternatives.now) (C.codes text.now)) }
{
    let mut left = alternatives;
    loop {
        let (first, behind) = first_alternative(left);
        if is_ended_matched(front, first, text, scratch)? {
            return Ok(true);
        }
        let Some(more) = behind else {
            return Ok(false);
        };
        left = more;
    }
}

// Whether the tokens match the whole text. Alternatives at their end are tried one by one, where
// this takes no longer than sets of places.
fn is_choice_matched<C: Character>(
    tokens: &[GlobToken],
    text: &[C],
    scratch: &mut Scratch,
) -> Result<bool, AllocError>
    requires { IsBalanced tokens.now }
    ensures { IfOk result (λ answer. IsTrue answer ↔ Matches tokens.now (C.codes text.now)) }
{
    match split_alternatives(tokens) {
        Some((front, alternatives)) if has_single_end(front) => {
            is_some_matched(front, alternatives, text, scratch)
        }
        _ => is_left_matched(tokens, text, scratch),
    }
}

// Whether the tokens match the whole text. Words between asterisks are looked for first.
fn is_middle_matched<C: Character>(
    tokens: &[GlobToken],
    text: &[C],
    scratch: &mut Scratch,
) -> Result<bool, AllocError>
    requires { IsBalanced tokens.now }
    ensures { IfOk result (λ answer. IsTrue answer ↔ Matches tokens.now (C.codes text.now)) }
{
    let Some((left, rest)) = behind_words(tokens, text) else {
        return Ok(false);
    };
    is_choice_matched(left, rest, scratch)
}

/// Whether the tokens match the whole text. The first characters are compared with the first tokens
/// one by one, so far as these match one character each, and so are the last ones. Then words
/// between asterisks are looked for.
pub fn is_matched<C: Character>(
    tokens: &[GlobToken],
    text: &[C],
    scratch: &mut Scratch,
) -> Result<bool, AllocError>
    requires { IsBalanced tokens.now }
    ensures { IfOk result (λ answer. IsTrue answer ↔ Matches tokens.now (C.codes text.now)) }
{
    let Some((left, rest)) = within_ends(tokens, text) else {
        return Ok(false);
    };
    is_middle_matched(left, rest, scratch)
}

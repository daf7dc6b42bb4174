// What a text with escapes stands for.
ghost use Rattle.std.specs.Prelude.{◌≡◌, ◌≢◌, ◌+◌, ◌-◌, ◌<◌, ◌≤◌, ℕ, List, [], IfOk, length};
ghost use Rattle.std.specs.List.{AllByRecursion};
ghost use Rattle.nextest_filtering_escapes.specs.Text.{IsText, escape_of};
ghost use Rattle.nextest_filtering_escapes.specs.Ends.{IsUnended};
ghost use Rattle.nextest_filtering_escapes.specs.Spans.{IsSpanOf, Rise};
ghost use Rattle.nextest_filtering_escapes.specs.Parts.{IsRead, span_at};
ghost use Rattle.nextest_filtering_escapes.specs.Reading.{ReadsEscape, SplitsFirst};

use super::hexadecimal::read_unicode;
use nextest_text::{Listing, Text};
use std::alloc::{AllocError, Global};

/// Where a bad escape stands, in bytes: a backslash with the whole character behind it, or the one
/// that ends a text.
#[derive(Clone, Copy, Debug, PartialEq, Eq)]
pub struct EscapeSpan {
    /// How many bytes stand before the backslash.
    pub offset: usize,
    /// How many bytes the backslash and the character behind it have.
    pub length: usize,
}

/// What a text with escapes stands for.
#[derive(Debug, PartialEq, Eq, Drop)]
pub struct Unescaped {
    /// What it stands for, bad escapes left out.
    pub text: Text,
    /// Its bad escapes, from the left.
    pub bad: Listing<EscapeSpan>,
}

/// What `letter` stands for behind a backslash, where it stands for one character.
fn character_of(letter: char) -> Option<char>
    ensures { result ≡ escape_of letter }
{
    match letter {
        'n' => Some('\n'),
        'r' => Some('\r'),
        't' => Some('\t'),
        'b' => Some('\u{8}'),
        'f' => Some('\u{c}'),
        '\\' | '/' | ')' | ',' => Some(letter),
        _ => None,
    }
}

/// The first character of a text, and what follows it. `None` of the empty text.
fn split_first(text: &str) -> Option<(char, &str)>
    ensures { SplitsFirst text.now result }
{
    let mut characters = text.chars();
    let first = characters.next()?;
    Some((first, characters.as_str()))
}

/// What stands behind a backslash: the character that the escape stands for, and what follows it.
/// `None` for a bad escape, of at most one more character.
fn read_escape(behind: &str) -> (Option<char>, &str)
    ensures { ReadsEscape behind.now result.0 result.1.now }
{
    let Some((letter, ahead)) = split_first(behind) else {
        return (None, behind);
    };
    if letter != 'u' {
        return (character_of(letter), ahead);
    }
    match read_unicode(ahead) {
        Some((character, further)) => (Some(character), further),
        None => (None, ahead),
    }
}

/// Where the escape stands that begins before `behind` and ends before `ahead`, both of which end
/// `raw`.
fn span_of(raw: &str, behind: &str, ahead: &str) -> EscapeSpan
    requires within { length behind.now < length raw.now }
    requires ends { length ahead.now ≤ length behind.now }
    ensures { result ≡ span_at (length raw.now - length behind.now - 1)
        (length behind.now - length ahead.now + 1) }
{
    EscapeSpan {
        offset: raw.len() - behind.len() - 1,
        length: behind.len() - ahead.len() + 1,
    }
}

/// What `raw` stands for, as `split_text` gives it, and its bad escapes. It fails only on
/// allocation.
pub fn unescape(alloc: Global, raw: &str) -> Result<Unescaped, AllocError>
    ensures text { IfOk result
        (λ read. read.bad ≡ [] → IsUnended raw.now → IsText raw.now read.text) }
    ensures bad { IfOk result (λ read. read.bad ≢ [] → (text : List ℕ) → IsText raw.now text → ⊥) }
    ensures spans { IfOk result (λ read. AllByRecursion (IsSpanOf raw.now) read.bad) }
    ensures read { IfOk result (λ read. IsRead raw.now read.text read.bad) }
    ensures rise { IfOk result (λ read. Rise 0 read.bad (length raw.now)) }
{
    let mut text = String::new(alloc);
    let mut bad = Listing::new(alloc);
    let mut rest = raw;
    while let Some((plain, behind)) = rest.split_once('\\') {
        text.push_str(plain)?;
        let (meant, ahead) = read_escape(behind);
        match meant {
            Some(character) => text.push(character)?,
            None => bad.push(span_of(raw, behind, ahead))?,
        }
        rest = ahead;
    }
    text.push_str(rest)?;
    Ok(Unescaped {
        text: Text::from(text),
        bad,
    })
}

//! The head of a panic message: `thread '`, a name, `' `, perhaps a number in parentheses, and
//! `panicked at `.
ghost use Rattle.std.specs.Prelude.{◌≡◌, ◌≢◌, ◌↔◌, ◌++◌, ◌∷◌, [], IsTrue, List, ℕ, MatchOption, codes};
ghost use Rattle.std.specs.List.{All};
ghost use Rattle.std.specs.Str.{chars};
ghost use Rattle.ucd_category.specs.GeneralCategory.{general_category};
ghost use Rattle.ucd_category.specs.declared.GeneralCategory.TheVariants.{DecimalNumber};
ghost use Rattle.nextest_run_events_slices.specs.Places.{BeginsWith, IsName, IsNumber, IsId, IsPanicHead};

use bstr::ByteSlice;
use ucd_category::GeneralCategory;

/// What stands behind `part`, if `text` begins with it.
fn behind<'a>(text: &'a [u8], part: &[u8]) -> Option<&'a [u8]>
    ensures { MatchOption result ((rest : List ℕ) → text.now ≢ part.now ++ rest)
        (λ rest. text.now ≡ part.now ++ rest.now) }
{
    text.strip_prefix(part)
}

/// Whether text without a quote is a name: whether it is well-formed and not empty.
fn is_name(text: &[u8]) -> bool
    ensures { All (λ byte. byte ≢ 39) text.now → IsTrue result ↔ IsName text.now }
{
    !text.is_empty() && text.is_utf8()
}

/// What stands behind a name and the quote that ends it, if `text` begins with them.
fn behind_name(text: &[u8]) -> Option<&[u8]>
    ensures { MatchOption result ((rest : List ℕ) → ¬ (BeginsWith IsName text.now (39 ∷ rest)))
        (λ rest. BeginsWith IsName text.now (39 ∷ rest.now)) }
{
    let end = text.find_byte(b'\'')?;
    if is_name(&text[..end]) {
        return Some(&text[end + 1..]);
    }
    None
}

/// Whether the character is a decimal digit of a script.
fn is_digit(character: char) -> bool
    ensures { IsTrue result ↔ (general_category character ≡ DecimalNumber) }
{
    GeneralCategory::for_char(character) == GeneralCategory::DecimalNumber
}

/// Whether each character is a decimal digit.
fn are_digits(text: &str) -> bool
    ensures { IsTrue result
        ↔ All (λ digit. general_category digit ≡ DecimalNumber) (chars text.now) }
{
    for character in text.chars() {
        if !is_digit(character) {
            return false;
        }
    }
    true
}

/// Whether `text` is a number: decimal digits of any script, at least one.
fn is_number(text: &[u8]) -> bool
    ensures { IsTrue result ↔ IsNumber text.now }
{
    match text.to_str() {
        Ok(digits) => !digits.is_empty() && are_digits(digits),
        Err(_) => false,
    }
}

/// What stands behind a number, `)` and a space, if `text` begins with them. A line feed ends the
/// search, so that no line is searched from each panic message before it.
fn behind_number(text: &[u8]) -> Option<&[u8]>
    ensures { MatchOption result
        ((rest : List ℕ) → ¬ (BeginsWith IsNumber text.now (codes ") " ++ rest)))
        (λ rest. BeginsWith IsNumber text.now (codes ") " ++ rest.now)) }
{
    let end = text.find_byteset(b")\n")?;
    if is_number(&text[..end]) {
        return behind(&text[end..], b") ");
    }
    None
}

/// What stands behind `panicked at `, if `text` begins with it, perhaps with a number in
/// parentheses before it.
fn behind_verb(text: &[u8]) -> Option<&[u8]>
    ensures { MatchOption result
        ((rest : List ℕ) → ¬ (BeginsWith IsId text.now (codes "panicked at " ++ rest)))
        (λ rest. BeginsWith IsId text.now (codes "panicked at " ++ rest.now)) }
{
    let Some(numbered) = behind(text, b"(") else {
        return behind(text, b"panicked at ");
    };
    let verb = behind_number(numbered)?;
    behind(verb, b"panicked at ")
}

/// What stands behind the head of a panic message, if `text` begins with one.
pub fn behind_panic_head(text: &[u8]) -> Option<&[u8]>
    ensures { MatchOption result ((rest : List ℕ) → ¬ (BeginsWith IsPanicHead text.now rest))
        (λ rest. BeginsWith IsPanicHead text.now rest.now) }
{
    let named = behind(text, b"thread '")?;
    let quoted = behind_name(named)?;
    let numbered = behind(quoted, b" ")?;
    behind_verb(numbered)
}

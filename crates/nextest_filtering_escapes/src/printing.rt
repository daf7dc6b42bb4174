// How a text and a regular expression print.
ghost use Rattle.std.specs.Prelude.{◌≡◌, ◌==◌, ◌||◌, ◌++◌, Some, nat_lt};
ghost use Rattle.std.specs.List.{flat_map};
ghost use Rattle.nextest_filtering_escapes.specs.Printing.{text_with_escapes, escaped_behind, letter_of, text_of_byte, printed_character, regex_text_of};

use std::fmt;

/// Prints a text so that it is read as what it is.
#[derive(Clone, Copy)]
pub struct EscapedText<'a>(pub &'a str);

/// Prints a regular expression so that it is read as what it is.
#[derive(Clone, Copy)]
pub struct SlashedText<'a>(pub &'a str);

/// The text, to be printed so that it is read as what it is.
pub fn escaped_text(text: &str) -> EscapedText<'_>
    ensures { result.0.now ≡ text.now }
{
    EscapedText(text)
}

/// The regular expression, to be printed so that it is read as what it is.
pub fn slashed_text(text: &str) -> SlashedText<'_>
    ensures { result.0.now ≡ text.now }
{
    SlashedText(text)
}

/// The letter behind a backslash that a character prints as, where it prints so.
fn letter_of(character: char) -> Option<char>
    ensures { result ≡ letter_of character }
{
    match character {
        '\\' | '/' | ')' | ',' => Some(character),
        '\n' => Some('n'),
        '\r' => Some('r'),
        '\t' => Some('t'),
        _ => None,
    }
}

/// Whether a character is a control character of ASCII.
fn is_control(character: char) -> bool
    ensures { result ≡ (nat_lt character 32 || character == 127) }
{
    character < ' ' || character == '\u{7f}'
}

/// A character inside a text.
#[derive(Clone, Copy)]
struct Inside(char);

impl fmt::Display for Inside {
    ghost output = { λ inside. Some (printed_character inside.0) };

    fn fmt<W: fmt::Write>(&self, f: &mut fmt::Formatter<W>) -> fmt::Result {
        match letter_of(self.0) {
            Some(letter) => write!(f, "\\{letter}"),
            None if is_control(self.0) => write!(f, "\\u{{{:x}}}", self.0 as u32),
            None => f.write_char(self.0),
        }
    }
}

/// What stands between the ends of a text.
#[derive(Clone, Copy)]
struct Middle<'a>(&'a str);

impl fmt::Display for Middle<'_> {
    ghost output = { λ middle. Some (flat_map text_of_byte middle.0.now) };

    fn fmt<W: fmt::Write>(&self, f: &mut fmt::Formatter<W>) -> fmt::Result {
        for character in self.0.chars() {
            write!(f, "{}", Inside(character))?;
        }
        Ok(())
    }
}

/// How a space at the start of a text prints, and what follows it.
fn opening_of(text: &str) -> (&str, &str)
    ensures { text_with_escapes text.now ≡ result.0.now ++ escaped_behind result.1.now }
{
    match text.strip_prefix(' ') {
        Some(rest) => ("\\u{20}", rest),
        None => ("", text),
    }
}

/// What stands before a space at the end of a text, and how that space prints.
fn closing_of(rest: &str) -> (&str, &str)
    ensures { escaped_behind rest.now ≡ flat_map text_of_byte result.0.now ++ result.1.now }
{
    match rest.strip_suffix(' ') {
        Some(middle) => (middle, "\\u{20}"),
        None => (rest, ""),
    }
}

impl fmt::Display for EscapedText<'_> {
    ghost output = { λ text. Some (text_with_escapes text.0.now) };

    fn fmt<W: fmt::Write>(&self, f: &mut fmt::Formatter<W>) -> fmt::Result {
        let (opening, rest) = opening_of(self.0);
        let (middle, closing) = closing_of(rest);
        write!(f, "{opening}{}{closing}", Middle(middle))
    }
}

impl fmt::Display for SlashedText<'_> {
    ghost output = { λ text. Some (regex_text_of text.0.now) };

    fn fmt<W: fmt::Write>(&self, f: &mut fmt::Formatter<W>) -> fmt::Result {
        let mut rest = self.0;
        while let Some((before, behind)) = rest.split_once('/') {
            write!(f, "{before}\\/")?;
            rest = behind;
        }
        write!(f, "{rest}")
    }
}

// Names, triples and values: spans of bytes of one kind.
ghost use Rattle.std.specs.Prelude.{◌≡◌, ◌≤◌, ℕ, List, false, length, take, drop, IfSome, IfNone};
ghost use Rattle.nextest_filtering_ast.specs.Grammar.{Behind};
ghost use Rattle.test_runner_core_platforms.specs.Grammar.{AllAre, begins_name, starts, ReadsName, ReadsValue};
ghost use Rattle.test_runner_core_platforms.specs.Parsing.{is_in, Finds, IsSplit};

use nextest_filtering_arguments::{behind, skip_blanks};

/// Which bytes a span goes over.
#[derive(Clone, Copy)]
pub(crate) enum Span {
    /// Those of a name: ASCII letters, digits and `_`.
    Name,
    /// Those of a triple: `.` and `-` besides.
    Triple,
    /// Those of a value: all but `"` and `\`.
    Value,
}

// Whether a name may begin with the byte.
fn begins_name(byte: u8) -> bool
    ensures { result ≡ begins_name byte }
{
    matches!(byte, b'A'..=b'Z' | b'a'..=b'z' | b'_')
}

impl Span {
    // Whether it goes over the byte.
    fn takes(self, byte: u8) -> bool
        ensures { result ≡ is_in self byte }
    {
        match self {
            Span::Name => matches!(byte, b'A'..=b'Z' | b'a'..=b'z' | b'_' | b'0'..=b'9'),
            Span::Triple => {
                matches!(byte, b'A'..=b'Z' | b'a'..=b'z' | b'_' | b'0'..=b'9' | b'.' | b'-')
            }
            Span::Value => !matches!(byte, b'"' | b'\\'),
        }
    }

    // How many bytes it goes over at the start of a text.
    fn len_in(self, text: &str) -> usize
        ensures within { result ≤ length text.now }
        ensures each { AllAre (is_in self) (take result text.now) }
        ensures ends { starts (is_in self) (drop result text.now) ≡ false }
    {
        for (index, byte) in text.as_bytes().iter().enumerate() {
            if !self.takes(*byte) {
                return index;
            }
        }
        text.len()
    }

    /// The bytes at the start of a text that it goes over, and what follows.
    pub(crate) fn split(self, text: &str) -> (&str, &str)
        ensures { IsSplit self text.now result.0.now result.1.now }
    {
        text.split_at(self.len_in(text))
    }
}

/// What follows a token that comes next, behind blanks.
pub(crate) fn token<'i>(text: &'i str, token: &str) -> Option<&'i str>
    ensures some { IfSome result (λ rest. Behind token.now text.now rest.now) }
    ensures none { IfNone result ((rest : List ℕ) → Behind token.now text.now rest → ⊥) }
{
    behind(skip_blanks(text), token)
}

// Whether a name may begin with the text.
fn begins(text: &str) -> bool
    ensures { result ≡ starts begins_name text.now }
{
    match text.as_bytes().first() {
        Some(byte) => begins_name(*byte),
        None => false,
    }
}

/// The name that comes next, and what follows it.
pub(crate) fn name(text: &str) -> Option<(&str, &str)>
    ensures { Finds (ReadsName text.now) result }
{
    let (name, rest) = Span::Name.split(skip_blanks(text));
    if begins(name) {
        Some((name, rest))
    } else {
        None
    }
}

/// The value in quotes that comes next, and what follows it.
pub(crate) fn value(text: &str) -> Option<(&str, &str)>
    ensures { Finds (ReadsValue text.now) result }
{
    let inside = token(text, "\"")?;
    let (value, end) = Span::Value.split(inside);
    match behind(end, "\"") {
        Some(rest) => Some((value, rest)),
        None => None,
    }
}

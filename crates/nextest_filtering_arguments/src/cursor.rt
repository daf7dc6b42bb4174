// What stands at the start of a text.
ghost use Rattle.std.specs.Prelude.{◌≡◌, ◌++◌, ℕ, List, IfSome, IfNone, drop, true};
ghost use Rattle.nextest_filtering_escapes.specs.Text.{is_blank};
ghost use Rattle.nextest_filtering_ast.specs.Grammar.{after_blanks};
ghost use Rattle.nextest_filtering_arguments.specs.Blanks.{has_blank_front, EndsBlank, HasBareEnd, IsTrimmed};

/// Whether the byte is a blank: a space, a tab, a line feed or a carriage return.
pub fn is_blank(byte: u8) -> bool
    ensures { result ≡ is_blank byte }
{
    matches!(byte, b' ' | b'\t' | b'\n' | b'\r')
}

/// Whether the first byte is a blank.
pub fn begins_blank(text: &str) -> bool
    ensures { result ≡ has_blank_front text.now }
{
    match text.as_bytes().first() {
        Some(byte) => is_blank(*byte),
        None => false,
    }
}

// The text behind its first byte, a blank.
#[tactic(auto, using(crate::proofs::Blanks::blank_ends))]
fn behind_blank(text: &str) -> &str
    requires blank { has_blank_front text.now ≡ true }
    ensures { result.now ≡ drop 1 text.now }
{
    text.split_at(1).1
}

/// The text from its first byte on that is no blank.
#[tactic(auto, using(crate::proofs::Blanks::unblanked_behind, crate::proofs::Blanks::unblanked_same))]
pub fn skip_blanks(text: &str) -> &str
    ensures { result.now ≡ after_blanks text.now }
{
    let mut rest = text;
    while begins_blank(rest) {
        rest = behind_blank(rest);
    }
    rest
}

/// What follows `front`, where `text` begins with it.
pub fn behind<'i>(text: &'i str, front: &str) -> Option<&'i str>
    ensures some { IfSome result (λ rest. text.now ≡ front.now ++ rest.now) }
    ensures none { IfNone result ((rest : List ℕ) → text.now ≡ front.now ++ rest → ⊥) }
{
    text.strip_prefix(front)
}

// What stands before a blank at the end.
fn before_blank(text: &str) -> Option<&str>
    ensures some { IfSome result (λ front. EndsBlank text.now front.now) }
    ensures none { IfNone result (HasBareEnd text.now) }
{
    if let Some(front) = text.strip_suffix(' ') {
        return Some(front);
    }
    if let Some(front) = text.strip_suffix('\t') {
        return Some(front);
    }
    if let Some(front) = text.strip_suffix('\n') {
        return Some(front);
    }
    text.strip_suffix('\r')
}

/// The text without the blanks at its end.
pub fn trim_blanks_end(text: &str) -> &str
    ensures { IsTrimmed text.now result.now }
{
    let mut rest = text;
    while let Some(front) = before_blank(rest) {
        rest = front;
    }
    rest
}

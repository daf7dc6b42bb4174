// Which texts are plain identifiers, as they stand.
ghost use Rattle.std.specs.Prelude.{◌≡◌, chars, [], ◌∷◌, IfSome, IfNone};
ghost use Rattle.std.specs.List.{list_all};
ghost use Rattle.nextest_config_elements_identifiers.specs.Identifier.{is_further, is_plain};

use unicode_ident::{is_xid_continue, is_xid_start};

// Whether the characters of a text make a plain identifier.
pub(crate) fn is_plain(text: &str) -> bool
    ensures { result ≡ is_plain (chars text.now) }
{
    match split_first(text) {
        Some((first, rest)) => is_xid_start(first) && are_further(rest),
        None => false,
    }
}

// The first character of a text, and the rest.
fn split_first(text: &str) -> Option<(char, &str)>
    ensures some { IfSome result (λ parts. chars text.now ≡ parts.0 ∷ chars parts.1.now) }
    ensures none { IfNone result (chars text.now ≡ []) }
{
    let mut rest = text.chars();
    let first = rest.next()?;
    Some((first, rest.as_str()))
}

// Whether each character of a text may stand in a plain identifier behind its first.
fn are_further(text: &str) -> bool
    ensures { result ≡ list_all is_further (chars text.now) }
{
    text.chars().all(is_further)
}

// Whether a character may stand in a plain identifier behind its first.
fn is_further(character: char) -> bool
    ensures { result ≡ is_further character }
{
    is_xid_continue(character) || character == '-'
}

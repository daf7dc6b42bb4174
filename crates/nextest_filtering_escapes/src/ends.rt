// Where a text with escapes and a regular expression end.
ghost use Rattle.std.specs.Prelude.{◌≡◌, ◌∷◌, ◌++◌, IfSome, IfNone};
ghost use Rattle.nextest_filtering_escapes.specs.Text.{is_end};
ghost use Rattle.nextest_filtering_escapes.specs.Ends.{Stops, IsUnended, IsEnded, IsOnlyText};
ghost use Rattle.nextest_filtering_escapes.specs.Regex.{HasRegexText, HasNoRegex, IsOnlyRegex};

/// Whether the byte ends a text, where it isn't escaped.
fn is_end(byte: u8) -> bool
    ensures { result ≡ is_end byte }
{
    byte == b')' || byte == b','
}

/// The text at the start of `input`, blanks included, and what follows: it runs to the first `)` or
/// `,` that isn't escaped, or to the end. A backslash escapes the character behind it, whatever it
/// is.
pub fn split_text(input: &str) -> (&str, &str)
    ensures whole { input.now ≡ result.0.now ++ result.1.now }
    ensures stops { Stops result.1.now }
    ensures unended { IsUnended result.0.now }
    ensures ended { IsEnded result.0.now result.1.now }
    ensures only { IsOnlyText input.now result.0.now result.1.now }
{
    let mut escaped = false;
    for (index, byte) in input.as_bytes().iter().enumerate() {
        if escaped {
            escaped = false;
        } else if is_end(*byte) {
            return input.split_at(index);
        } else {
            escaped = *byte == b'\\';
        }
    }
    (input, "")
}

/// What stands before the first `/` with no backslash directly before it, and what follows that
/// `/`. `None` where there is none.
pub fn split_regex(input: &str) -> Option<(&str, &str)>
    ensures whole { IfSome result (λ parts. input.now ≡ parts.0.now ++ 47 ∷ parts.1.now) }
    ensures ends { IfSome result (λ parts. HasRegexText parts.0.now) }
    ensures none { IfNone result (HasNoRegex input.now) }
    ensures only { IfSome result (λ parts. IsOnlyRegex input.now parts.0.now parts.1.now) }
{
    let mut backslash = false;
    for (index, byte) in input.as_bytes().iter().enumerate() {
        if *byte == b'/' && !backslash {
            return Some((&input[..index], &input[index + 1..]));
        }
        backslash = *byte == b'\\';
    }
    None
}

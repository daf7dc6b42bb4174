// A character by its number.
ghost use Rattle.std.specs.Prelude.{ℕ, ◌<◌, ◌≤◌, length, SomeIff};
ghost use Rattle.std.specs.Str.Parse.{AllDigits, digits_value};
ghost use Rattle.nextest_filtering_escapes.specs.Reading.{IsShortHexadecimal, ReadsUnicode, SplitsBraces};

/// The number that one to six hexadecimal digits say. `None` where `digits` is anything else.
fn number_of(digits: &str) -> Option<u32>
    ensures { SomeIff result (IsShortHexadecimal digits.now) (digits_value 16 digits.now) }
{
    if digits.is_empty() || digits.len() > 6 || digits.starts_with('+') {
        return None;
    }
    u32::from_str_radix(digits, 16).ok()
}

/// What stands between the braces at the start of `behind`, and what follows them. `None` where
/// there are none.
fn split_braces(behind: &str) -> Option<(&str, &str)>
    ensures { SplitsBraces behind.now result }
{
    behind.strip_prefix('{')?.split_once('}')
}

/// The character that `{digits}` at the start of `behind` stands for, and what follows. `None`
/// where there is no such prefix, or its number is no character's.
pub fn read_unicode(behind: &str) -> Option<(char, &str)>
    ensures { ReadsUnicode behind.now result }
{
    let (digits, ahead) = split_braces(behind)?;
    let character = char::from_u32(number_of(digits)?)?;
    Some((character, ahead))
}

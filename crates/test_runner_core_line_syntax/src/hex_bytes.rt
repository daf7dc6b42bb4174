// Bytes as two digits each in lower-case hex, read without memory.
ghost use Rattle.std.specs.Prelude.{◌↔◌, IsTrue};
ghost use Rattle.std.specs.List.{All};
ghost use Rattle.test_runner_core_line_syntax.specs.Hex.{IsDigit, IsHex, SpellsByte, SpellsDigit};

// What a digit stands for.
fn value_of(digit: u8) -> Option<u8>
    ensures { SpellsDigit digit result }
{
    match digit {
        b'0'..=b'9' => Some(digit - b'0'),
        b'a'..=b'f' => Some(digit - b'a' + 10),
        _ => None,
    }
}

/// The byte that two digits spell.
pub fn byte_of(high: u8, low: u8) -> Option<u8>
    ensures { SpellsByte high low result }
{
    let high = value_of(high)?;
    let low = value_of(low)?;
    Some(high * 16 + low)
}

// Whether it is a digit.
fn is_digit(digit: u8) -> bool
    ensures { IsTrue result ↔ IsDigit digit }
{
    value_of(digit).is_some()
}

// Whether they are digits. They are all looked at: without a way out of the loop it takes many at
// once.
fn are_digits(bytes: &[u8]) -> bool
    ensures { IsTrue result ↔ All IsDigit bytes.now }
{
    let mut so_far = true;
    for byte in bytes {
        so_far = so_far & is_digit(*byte);
    }
    so_far
}

/// Whether the digits spell bytes.
pub fn is_hex(digits: &[u8]) -> bool
    ensures { IsTrue result ↔ IsHex digits.now }
{
    digits.len() % 2 == 0 && are_digits(digits)
}

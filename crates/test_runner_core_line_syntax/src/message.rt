// Whether digits spell a text, read without memory.
ghost use Rattle.std.specs.Prelude.{◌↔◌, IsTrue};
ghost use Rattle.std.specs.Str.{IsUtf8};
ghost use Rattle.test_runner_core_line_syntax.specs.Hex.{IsHex, bytes_of_hex};

use super::hex_bytes::byte_of;
use super::utf8::{is_closed, may_follow};

/// Whether the bytes that the digits spell are UTF-8.
pub fn is_text(digits: &[u8]) -> bool
    requires { IsHex digits.now }
    ensures { IsTrue result ↔ IsUtf8 (bytes_of_hex digits.now) }
{
    let mut first = 0;
    let mut second = 0;
    let mut third = 0;
    let mut rest = digits;
    while let [high, low, behind @ ..] = rest {
        let Some(byte) = byte_of(*high, *low) else {
            return false;
        };
        if !may_follow(first, second, third, byte) {
            return false;
        }
        first = second;
        second = third;
        third = byte;
        rest = behind;
    }
    is_closed(first, second, third)
}

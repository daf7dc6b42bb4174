// A text that stands in a line in lower-case hex.
ghost use Rattle.std.specs.Prelude.{◌≡◌, true};
ghost use Rattle.std.specs.Str.{is_utf8};
ghost use Rattle.test_runner_core_line_syntax.specs.Hex.{bytes_of_hex};

use super::hex_digits::HexDigits;
use super::message::is_text;
use nextest_text::Text;
use std::alloc::{AllocError, Global};

/// A text whose bytes stand in a line in lower-case hex.
#[derive(Clone, Copy)]
pub struct HexText<'a> {
    /// Its bytes.
    pub hex: HexDigits<'a>,
    // They are UTF-8.
    pub ghost utf8: { is_utf8 (bytes_of_hex hex.digits.now) ≡ true },
}

impl<'a> HexText<'a> {
    ghost use Rattle.std.specs.Prelude.{◌≡◌, IfOk};
    ghost use Rattle.std.specs.Str.{IsUtf8};
    ghost use Rattle.test_runner_core_line_syntax.specs.Spelling.{SpellsHex};
    ghost use Rattle.test_runner_core_line_syntax.specs.Fields.{Reads};
    ghost use Rattle.test_runner_core_line_syntax.specs.Lent.{text_meant};

    /// The text that the field spells, without memory; `None` where it is no hex, or the hex of
    /// bytes that aren't UTF-8.
    pub fn parse(field: &'a str) -> Option<HexText<'a>>
        ensures { Reads text_meant (λ text. IsUtf8 text × SpellsHex text field.now) result }
    {
        let hex = HexDigits::parse(field)?;
        if is_text(field.as_bytes()) {
            Some(HexText { hex })
        } else {
            None
        }
    }

    /// The text that is meant, in memory of just its size. It fails only on allocation.
    pub fn decode(self, alloc: Global) -> Result<Text, AllocError>
        ensures { IfOk result (λ text. text ≡ text_meant self.entry) }
    {
        match String::from_utf8(self.hex.decode(alloc)?) {
            Ok(text) => Ok(Text::from(text)),
            Err(_) => unreachable!(),
        }
    }
}

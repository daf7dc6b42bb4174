// Bytes that stand in a line in lower-case hex.
ghost use Rattle.std.specs.Prelude.{◌≡◌};
ghost use Rattle.hex.specs.Hex.{encode_lower};
ghost use Rattle.test_runner_core_line_syntax.specs.Hex.{bytes_of_hex};

use super::hex_bytes::is_hex;
use hex::FromHexError;
use std::alloc::{AllocError, Global};

/// Bytes in lower-case hex, as they stand in a line: two digits a byte, the high one first.
#[derive(Clone, Copy)]
pub struct HexDigits<'a> {
    /// The digits.
    pub digits: &'a str,
    // They are lower-case hex.
    pub ghost spelled: { encode_lower (bytes_of_hex digits.now) ≡ digits.now },
}

impl<'a> HexDigits<'a> {
    ghost use Rattle.std.specs.Prelude.{◌≡◌, IfOk};
    ghost use Rattle.test_runner_core_line_syntax.specs.Spelling.{SpellsHex};
    ghost use Rattle.test_runner_core_line_syntax.specs.Fields.{Reads};
    ghost use Rattle.test_runner_core_line_syntax.specs.Lent.{digits_meant};

    /// The bytes that the field spells, without memory; `None` where it spells none: for an odd
    /// number of digits, and for any other character, an upper-case digit too.
    pub fn parse(field: &'a str) -> Option<HexDigits<'a>>
        ensures { Reads digits_meant (λ bytes. SpellsHex bytes field.now) result }
    {
        if is_hex(field.as_bytes()) {
            Some(HexDigits { digits: field })
        } else {
            None
        }
    }

    /// The bytes that are meant, in memory of just their size. It fails only on allocation.
    pub fn decode(self, alloc: Global) -> Result<Vec<u8>, AllocError>
        ensures { IfOk result (λ bytes. bytes.items ≡ digits_meant self.entry) }
    {
        match hex::decode(alloc, self.digits) {
            Ok(bytes) => Ok(bytes),
            Err(error) => match error {
                FromHexError::OutOfMemory => Err(AllocError),
                _ => unreachable!(),
            },
        }
    }
}

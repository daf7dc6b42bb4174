// Writing to a text.
ghost use Rattle.std.specs.Prelude.{◌≡◌, ◌≤◌, [], ◌∷◌, ◌++◌, OnOk, length, string_bytes, take};
ghost use Rattle.std.specs.Str.{IsUtf8};
ghost use Rattle.hex.specs.Hex.{encode_lower};
ghost use Rattle.test_runner_core_report_lines.specs.Writing.{Extends, kept_by};

use std::alloc::AllocError;
use std::str;

// So many bytes are written at a time.
const CHUNK: usize = 512;

// Adds the piece. On an `Err` nothing is added.
pub(crate) fn push_text(text: &mut String, piece: &str) -> Result<(), AllocError>
    ensures ok { OnOk result (string_bytes text.new ≡ string_bytes text.old ++ piece.now) }
    ensures grows { Extends (string_bytes text.old) (string_bytes text.new) }
{
    text.push_str(piece)
}

// Adds a tab and the field. On an `Err` the tab may stand there.
pub(crate) fn push_field(text: &mut String, field: &str) -> Result<(), AllocError>
    ensures ok { OnOk result (string_bytes text.new ≡ string_bytes text.old ++ 9 ∷ field.now) }
    ensures grows { Extends (string_bytes text.old) (string_bytes text.new) }
{
    push_text(text, "\t")?;
    push_text(text, field)
}

// Adds a line feed. On an `Err` nothing is added.
pub(crate) fn push_feed(text: &mut String) -> Result<(), AllocError>
    ensures ok { OnOk result (string_bytes text.new ≡ string_bytes text.old ++ 10 ∷ []) }
    ensures grows { Extends (string_bytes text.old) (string_bytes text.new) }
{
    push_text(text, "\n")
}

// Adds the bytes in hex. On an `Err` some of them may stand there.
pub(crate) fn push_hex(text: &mut String, bytes: &[u8]) -> Result<(), AllocError>
    ensures ok { OnOk result
        (string_bytes text.new ≡ string_bytes text.old ++ encode_lower bytes.now) }
    ensures grows { Extends (string_bytes text.old) (string_bytes text.new) }
{
    let mut rest = bytes;
    while rest.len() > CHUNK {
        let (chunk, behind) = rest.split_at(CHUNK);
        push_chunk(text, chunk)?;
        rest = behind;
    }
    push_chunk(text, rest)
}

// Adds a few bytes in hex. On an `Err` nothing is added.
fn push_chunk(text: &mut String, bytes: &[u8]) -> Result<(), AllocError>
    requires { length bytes.now ≤ CHUNK }
    ensures ok { OnOk result
        (string_bytes text.new ≡ string_bytes text.old ++ encode_lower bytes.now) }
    ensures grows { Extends (string_bytes text.old) (string_bytes text.new) }
{
    let mut room = [0u8; 2 * CHUNK];
    let digits = &mut room[..2 * bytes.len()];
    if hex::encode_to_slice(bytes, digits).is_err() {
        unreachable!();
    }
    match str::from_utf8(digits) {
        Ok(digits) => push_text(text, digits),
        Err(_) => unreachable!(),
    }
}

// The answer `added` of what added to a text that had so many bytes. Where that failed, the text
// has these alone again.
pub(crate) fn all_or_nothing(
    text: &mut String,
    length: usize,
    added: Result<(), AllocError>,
) -> Result<(), AllocError>
    requires { IsUtf8 (take length (string_bytes text.old)) }
    ensures answer { result ≡ added }
    ensures bytes { string_bytes text.new ≡ kept_by added length (string_bytes text.old) }
{
    if added.is_err() {
        text.truncate(length);
    }
    added
}

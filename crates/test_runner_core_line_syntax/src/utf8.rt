// UTF-8, byte by byte.
ghost use Rattle.std.specs.Prelude.{◌↔◌, ◌≤◌, IsTrue};
ghost use Rattle.simdutf8.specs.Steps.{IsClosed, IsContinuation, Step, least_after, most_after};

// Whether the byte is one of a character that has begun.
fn is_later(byte: u8) -> bool
    ensures { IsTrue result ↔ IsContinuation byte }
{
    byte >= 0x80 && byte < 0xC0
}

// Whether the byte may follow the first one of a character.
fn may_be_second(first: u8, byte: u8) -> bool
    ensures { IsTrue result ↔ ((0xC2 ≤ first) × (first ≤ 0xF4) × (least_after first ≤ byte)
        × (byte ≤ most_after first)) }
{
    match first {
        0xE0 => byte >= 0xA0 && byte <= 0xBF,
        0xED => byte >= 0x80 && byte <= 0x9F,
        0xF0 => byte >= 0x90 && byte <= 0xBF,
        0xF4 => byte >= 0x80 && byte <= 0x8F,
        0xC2..=0xF3 => byte >= 0x80 && byte <= 0xBF,
        _ => false,
    }
}

/// Whether the byte may stand behind the three before it, with 0 for each that there is none.
pub fn may_follow(first: u8, second: u8, third: u8, byte: u8) -> bool
    ensures { IsTrue result ↔ Step first second third byte }
{
    if first >= 0xF0 || second >= 0xE0 {
        return is_later(third) && is_later(byte);
    }
    if third >= 0xC0 {
        return may_be_second(third, byte);
    }
    byte < 0x80 || byte >= 0xC0
}

/// Whether no character is left open behind the last three bytes.
pub fn is_closed(first: u8, second: u8, third: u8) -> bool
    ensures { IsTrue result ↔ IsClosed first second third }
{
    first < 0xF0 && second < 0xE0 && third < 0xC0
}

// Numbers in shortest decimal.
ghost use Rattle.std.specs.Prelude.{◌≡◌, ◌≢◌, decimal, IfSome, IfNone, ℕ, ℤ, ◌^◌, ◌<◌, FitsSigned};
ghost use Rattle.std.specs.Fmt.{signed_decimal};
ghost use Rattle.std.specs.Int.{w32};

use itoa::Buffer;

/// The number that `text` is in shortest decimal: digits, no sign, and no leading zero before
/// another digit. `None` for every other text, and above `u64::MAX`.
pub fn u64_of_decimal(text: &str) -> Option<u64>
    ensures found { IfSome result (λ number. text.now ≡ decimal number) }
    ensures none { IfNone result ((number : ℕ) → number < 2 ^ 64 → text.now ≢ decimal number) }
{
    let Ok(number) = text.parse::<u64>() else {
        return None;
    };
    let mut digits = Buffer::new();
    if digits.format(number) == text {
        Some(number)
    } else {
        None
    }
}

/// The number that `text` is in shortest decimal, with a `-` before the digits of one below 0.
/// `None` for every other text, and outside the range of `i32`.
pub fn i32_of_decimal(text: &str) -> Option<i32>
    ensures found { IfSome result (λ number. text.now ≡ signed_decimal number) }
    ensures none { IfNone result
        ((number : ℤ) → FitsSigned w32 number → text.now ≢ signed_decimal number) }
{
    let Ok(number) = text.parse::<i32>() else {
        return None;
    };
    let mut buffer = Buffer::new();
    if buffer.format(number) == text {
        Some(number)
    } else {
        None
    }
}

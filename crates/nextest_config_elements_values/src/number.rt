// Numbers in decimal digits.
ghost use Rattle.std.specs.Prelude.{◌≡◌, ◌+◌, ◌-◌, ◌*◌, ◌^◌, ◌<◌, SomeIff};
ghost use Rattle.std.specs.Int.{IsInRange};
ghost use Rattle.std.specs.Str.Parse.{AllDigits, IsNumeral, digits_value};

// The number that digits write, leading zeros allowed. `None` where there is no digit, and above
// `u64::MAX`.
#[tactic(auto, using(crate::proofs::Numbers::reads_digits))]
pub(crate) fn number_of(digits: &[u8]) -> Option<u64>
    requires { AllDigits 10 digits.now }
    ensures { SomeIff result (IsNumeral 10 digits.now × (digits_value 10 digits.now < 2 ^ 64))
        (digits_value 10 digits.now) }
{
    if digits.is_empty() {
        return None;
    }
    let mut number: u64 = 0;
    for digit in digits {
        let Some(next) = with_digit(number, *digit) else {
            return None;
        };
        number = next;
    }
    Some(number)
}

// A number with one more digit behind it. `None` above `u64::MAX`.
fn with_digit(number: u64, digit: u8) -> Option<u64>
    requires { IsInRange 48 57 digit }
    ensures { SomeIff result (number * 10 + (digit - 48) < 2 ^ 64) (number * 10 + (digit - 48)) }
{
    number.checked_mul(10)?.checked_add(u64::from(digit - b'0'))
}

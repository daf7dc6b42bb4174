// Which texts are durations, and which.
ghost use Rattle.std.specs.Prelude.{◌≡◌, ◌^◌, ◌<◌, ◌≤◌, ℕ, IfSome, IfNone, IfOk, OnErr};
ghost use Rattle.std.specs.Duration.{as_nanos};
ghost use Rattle.nextest_config_elements_values.specs.Duration.{IsDuration};
ghost use Rattle.nextest_config_elements_values.specs.Nanos.{nanos_in};
ghost use Rattle.nextest_config_elements_values.specs.Ahead.{StartsWith, behind_part, Reads, is_zero};

use crate::config_duration::ConfigDuration;
use crate::number::number_of;
use crate::runs::{Class, are_blanks, skip_blanks, split_run};
use crate::units::unit_nanos;
use std::time::Duration;
use thiserror::Error;

/// The text is no duration.
#[derive(Clone, Copy, Debug, PartialEq, Eq, Error)]
#[error("expected a duration, as `1h 30m`")]
pub struct BadDuration;

/// The duration that `text` is: parts of a whole number and a unit, as `1h 30m`, which add up, or
/// `0`. Blanks (space, tab, line feed, carriage return) may stand before, behind and between
/// numbers and units. Units are `ns`, `us`, `ms`, `s`, `m`, `h`, `d`, `w`, `M` (months of 2,630,016
/// seconds) and `y` (years of 31,557,600 seconds), and their longer words. An `Err` for every other
/// text, and above `u64::MAX` nanoseconds.
#[tactic(auto, using(crate::proofs::Nanos::nanos_is_duration))]
pub fn parse_duration(text: &str) -> Result<Duration, BadDuration>
    ensures found { IfOk result (λ duration. IsDuration text.now (as_nanos duration)) }
    ensures refused { OnErr result ((nanos : ℕ) → ¬ (IsDuration text.now nanos)) }
{
    match nanos_in(text) {
        Some(nanos) => Ok(Duration::from_nanos(nanos)),
        None => Err(BadDuration),
    }
}

impl ConfigDuration {
    /// The duration that `text` is, by the same rules. An `Err` for every other text.
    pub fn parse(text: &str) -> Result<ConfigDuration, BadDuration>
        ensures found { IfOk result (λ duration. nanos_in text.now ≡ Some duration.nanos) }
        ensures refused { OnErr result (nanos_in text.now ≡ None) }
    {
        match nanos_in(text) {
            Some(nanos) => Ok(ConfigDuration::from_nanos(nanos)),
            None => Err(BadDuration),
        }
    }
}

// The nanoseconds of a text that is a duration.
fn nanos_in(text: &str) -> Option<u64>
    ensures { result ≡ nanos_in text.now }
{
    let rest = skip_blanks(text.as_bytes());
    if is_zero(rest) {
        return Some(0);
    }
    if rest.is_empty() {
        return None;
    }
    sum_of_parts(rest)
}

// Whether a text is `0` and blanks.
fn is_zero(text: &[u8]) -> bool
    ensures { result ≡ is_zero text.now }
{
    match text {
        [b'0', behind @ ..] => are_blanks(behind),
        _ => false,
    }
}

// The sum of the parts that a text is, in nanoseconds. `None` where it isn't parts, and above
// `u64::MAX` nanoseconds.
fn sum_of_parts(text: &[u8]) -> Option<u64>
    ensures found { IfSome result (λ nanos. Reads text.now nanos) }
    ensures fits { IfSome result (λ nanos. nanos < 2 ^ 64) }
    ensures none { IfNone result ((nanos : ℕ) → Reads text.now nanos → 2 ^ 64 ≤ nanos) }
{
    let mut rest = text;
    let mut sum: u64 = 0;
    while !rest.is_empty() {
        let Some((nanos, behind)) = first_part(rest) else {
            return None;
        };
        let Some(more) = sum.checked_add(nanos) else {
            return None;
        };
        sum = more;
        rest = behind;
    }
    Some(sum)
}

// The first part of a text, in nanoseconds, and what follows it and its blanks. `None` where no
// part stands first, and above `u64::MAX` nanoseconds.
fn first_part(text: &[u8]) -> Option<(u64, &[u8])>
    ensures found { IfSome result (λ part. StartsWith text.now part.0) }
    ensures rest { IfSome result (λ part. part.1.now ≡ behind_part text.now) }
    ensures none { IfNone result ((nanos : ℕ) → StartsWith text.now nanos → 2 ^ 64 ≤ nanos) }
{
    let (digits, behind) = split_run(Class::Digit, text);
    let (word, behind) = split_run(Class::Letter, skip_blanks(behind));
    let unit = unit_nanos(word)?;
    let Some(number) = number_of(digits) else {
        return None;
    };
    let nanos = number.checked_mul(unit)?;
    Some((nanos, skip_blanks(behind)))
}

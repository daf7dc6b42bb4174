// The units of durations.
ghost use Rattle.std.specs.Prelude.{◌≡◌, nat_eq, take, drop};
ghost use Rattle.std.specs.Cmp.Lexicographic.{pointwise};
ghost use Rattle.std.specs.List.{list_any};
ghost use Rattle.nextest_config_elements_values.specs.Duration.{look_up, unit_nanos, units};

// Whether a word is a name.
fn is_name(name: &str, word: &[u8]) -> bool
    ensures { result ≡ pointwise nat_eq name.now word.now }
{
    name.as_bytes() == word
}

// Whether a word is one of some names.
fn is_among(names: &[&str], word: &[u8]) -> bool
    ensures { result ≡ list_any (λ name. pointwise nat_eq name.now word.now) names.now }
{
    names.iter().any(|name| is_name(name, word))
}

// The nanoseconds of the unit that a word names.
pub(crate) fn unit_nanos(word: &[u8]) -> Option<u64>
    ensures { result ≡ unit_nanos word.now }
{
    if let Some(nanos) = short_unit_nanos(word) {
        return Some(nanos);
    }
    long_unit_nanos(word)
}

// Those of a unit up to the minute.
#[tactic(auto, unfolding(crate::specs::Duration::units))]
fn short_unit_nanos(word: &[u8]) -> Option<u64>
    ensures { result ≡ look_up (take 5 units) word.now }
{
    if is_among(&["ns", "nsec", "nanos"], word) {
        return Some(1);
    }
    if is_among(&["us", "usec"], word) {
        return Some(1_000);
    }
    if is_among(&["ms", "msec", "millis"], word) {
        return Some(1_000_000);
    }
    if is_among(&["s", "sec", "secs", "second", "seconds"], word) {
        return Some(1_000_000_000);
    }
    if is_among(&["m", "min", "mins", "minute", "minutes"], word) {
        return Some(60_000_000_000);
    }
    None
}

// Those of a unit from the hour on.
#[tactic(auto, unfolding(crate::specs::Duration::units))]
fn long_unit_nanos(word: &[u8]) -> Option<u64>
    ensures { result ≡ look_up (drop 5 units) word.now }
{
    if is_among(&["h", "hr", "hrs", "hour", "hours"], word) {
        return Some(3_600_000_000_000);
    }
    if is_among(&["d", "day", "days"], word) {
        return Some(86_400_000_000_000);
    }
    if is_among(&["w", "wk", "wks", "week", "weeks"], word) {
        return Some(604_800_000_000_000);
    }
    if is_among(&["M", "month", "months"], word) {
        return Some(2_630_016_000_000_000);
    }
    if is_among(&["y", "yr", "yrs", "year", "years"], word) {
        return Some(31_557_600_000_000_000);
    }
    None
}

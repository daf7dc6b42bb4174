// When failing tests stop a run.
ghost use Rattle.std.specs.Prelude.{◌≡◌, ◌≢◌, ◌↔◌, ℕ, IsTrue, IfOk, IfSome, IfNone, OnErr};
ghost use Rattle.nextest_config_elements_choices.specs.FailWeight.{capped};
ghost use Rattle.nextest_config_elements_choices.specs.MaxFail.{IsAll, IsCount, IsLimit, IsMaxFail, mode_at, of_fail_fast, word_of};
ghost use Rattle.nextest_config_elements_choices.specs.declared.max_fail.MaxFail.{MaxFail};
ghost use Rattle.nextest_config_elements_choices.specs.declared.max_fail.MaxFail.TheVariants.{Count};
ghost use Rattle.nextest_config_elements_choices.specs.declared.max_fail.TerminateMode.{TerminateMode};

use std::fmt;
use thiserror::Error;

/// The text is none of those that its type reads: a `MaxFail`, a `TerminateMode` or the name of an
/// experimental feature.
#[derive(Clone, Copy, Debug, PartialEq, Eq, Error)]
#[error("the text has none of the accepted forms")]
pub struct BadText;

/// How a run ends that is stopped by failing tests.
#[derive(Clone, Copy, Debug, PartialEq, Eq, Hash)]
pub enum TerminateMode {
    /// What runs may end by itself.
    Wait,
    /// What runs is ended.
    Immediate,
}

impl TerminateMode {
    /// The way that `text` names: `wait` or `immediate`. An `Err` for every other text.
    pub fn from_text(text: &str) -> Result<TerminateMode, BadText>
        ensures found { IfOk result (λ mode. text.now ≡ word_of mode) }
        ensures refused { OnErr result ((mode : TerminateMode) → text.now ≢ word_of mode) }
    {
        match text {
            "wait" => Ok(TerminateMode::Wait),
            "immediate" => Ok(TerminateMode::Immediate),
            _ => Err(BadText),
        }
    }
}

impl fmt::Display for TerminateMode {
    ghost use Rattle.std.specs.Prelude.{Some};
    ghost use Rattle.nextest_config_elements_choices.specs.MaxFail.{word_of};

    ghost output = { λ mode. Some (word_of mode) };

    fn fmt<W: fmt::Write>(&self, f: &mut fmt::Formatter<W>) -> fmt::Result {
        match self {
            TerminateMode::Wait => f.write_str("wait"),
            TerminateMode::Immediate => f.write_str("immediate"),
        }
    }
}

/// When failing tests stop a run: each of them has a weight, which is 1 where nothing else is set.
#[derive(Clone, Copy, Debug, PartialEq, Eq, Hash)]
pub enum MaxFail {
    /// The run stops once its failing tests weigh this much together.
    Count {
        /// Their weight, at least 1 in every accepted configuration.
        max_fail: usize,
        /// How it stops.
        terminate: TerminateMode,
    },
    /// Failing tests never stop the run.
    All,
}

impl MaxFail {
    /// The limit of a run that stops at its first failing test, and lets what runs end by itself;
    /// or of one that failing tests never stop.
    pub fn from_fail_fast(fail_fast: bool) -> MaxFail
        ensures { result ≡ of_fail_fast fail_fast }
    {
        if fail_fast {
            MaxFail::Count {
                max_fail: 1,
                terminate: TerminateMode::Wait,
            }
        } else {
            MaxFail::All
        }
    }

    /// The limit that `text` is: `all` in letters of any case, or a number from 1 to
    /// 9223372036854775807 in decimal digits, leading zeros and a `+` allowed, behind which `:wait`
    /// or `:immediate` may say how the run stops: it waits where nothing is said. An `Err` for
    /// every other text.
    pub fn from_text(text: &str) -> Result<MaxFail, BadText>
        ensures found { IfOk result (λ limit. IsMaxFail text.now limit) }
        ensures refused { OnErr result ((limit : MaxFail) → ¬ (IsMaxFail text.now limit)) }
    {
        if is_all(text) {
            return Ok(MaxFail::All);
        }
        limit_of(text)
    }

    /// How the run stops where its failing tests weigh `failed_weight` together; `None` where it
    /// goes on. A sum that no `usize` has may be given as `usize::MAX`.
    pub fn is_exceeded(self, failed_weight: usize) -> Option<TerminateMode>
        ensures found { result ≡ mode_at self failed_weight }
        ensures capped { (sum : ℕ) → failed_weight ≡ capped sum → result ≡ mode_at self sum }
    {
        match self {
            MaxFail::Count {
                max_fail,
                terminate,
            } if max_fail <= failed_weight => Some(terminate),
            _ => None,
        }
    }
}

// Whether a text is `all`, in letters of any case.
fn is_all(text: &str) -> bool
    ensures { IsTrue result ↔ IsAll text.now }
{
    text.eq_ignore_ascii_case("all")
}

// The limit that a text is, a number and how the run stops.
fn limit_of(text: &str) -> Result<MaxFail, BadText>
    ensures found { IfOk result (λ limit. (number : ℕ) × (mode : TerminateMode)
        × (limit ≡ Count number mode) × IsLimit text.now number mode) }
    ensures refused { OnErr result
        ((number : ℕ) (mode : TerminateMode) → ¬ (IsLimit text.now number mode)) }
{
    match text.split_once(':') {
        Some((digits, word)) => counted(digits, TerminateMode::from_text(word)?),
        None => counted(text, TerminateMode::Wait),
    }
}

// A limit by its number, in digits.
fn counted(digits: &str, terminate: TerminateMode) -> Result<MaxFail, BadText>
    ensures found { IfOk result
        (λ limit. (number : ℕ) × (limit ≡ Count number terminate) × IsCount digits.now number) }
    ensures refused { OnErr result ((number : ℕ) → ¬ (IsCount digits.now number)) }
{
    match count_of(digits) {
        Some(max_fail) => Ok(MaxFail::Count {
            max_fail,
            terminate,
        }),
        None => Err(BadText),
    }
}

// The number that a text is, from 1 to 2^63 - 1.
fn count_of(text: &str) -> Option<usize>
    ensures some { IfSome result (λ number. IsCount text.now number) }
    ensures none { IfNone result ((number : ℕ) → ¬ (IsCount text.now number)) }
{
    let Ok(number) = text.parse::<usize>() else {
        return None;
    };
    if 0 < number && number <= 9_223_372_036_854_775_807 {
        Some(number)
    } else {
        None
    }
}

impl fmt::Display for MaxFail {
    ghost use Rattle.std.specs.Prelude.{Some};
    ghost use Rattle.nextest_config_elements_choices.specs.MaxFail.{text_of};

    ghost output = { λ limit. Some (text_of limit) };

    fn fmt<W: fmt::Write>(&self, f: &mut fmt::Formatter<W>) -> fmt::Result {
        match self {
            MaxFail::All => f.write_str("all"),
            MaxFail::Count {
                max_fail,
                terminate: TerminateMode::Wait,
            } => write!(f, "{max_fail}"),
            MaxFail::Count {
                max_fail,
                terminate: TerminateMode::Immediate,
            } => write!(f, "{max_fail}:immediate"),
        }
    }
}

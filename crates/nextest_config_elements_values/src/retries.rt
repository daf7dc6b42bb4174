// How a failing test is tried again.
ghost use Rattle.std.specs.Prelude.{◌≡◌};
ghost use Rattle.nextest_config_elements_values.specs.Retries.{count_of, without_delay};

use crate::config_duration::ConfigDuration;

/// How a failing test is tried again.
#[derive(Clone, Copy, Debug, PartialEq, Eq)]
pub enum RetryPolicy {
    /// Each further attempt comes after the same delay.
    Fixed {
        /// How many more attempts there are after the first.
        count: u32,
        /// The delay before each of them.
        delay: ConfigDuration,
        /// Whether a delay varies by chance.
        jitter: bool,
    },
    /// The delay doubles with each further attempt.
    Exponential {
        /// How many more attempts there are after the first, at least 1 in every accepted
        /// configuration.
        count: u32,
        /// The delay before the first of them, above 0 in every accepted configuration.
        delay: ConfigDuration,
        /// Whether a delay varies by chance.
        jitter: bool,
        /// The longest delay, where there is one: not below `delay` in an accepted configuration.
        max_delay: Option<ConfigDuration>,
    },
}

impl RetryPolicy {
    /// So many more attempts, without delay.
    pub fn new_without_delay(count: u32) -> RetryPolicy
        ensures { result ≡ without_delay count }
    {
        RetryPolicy::Fixed {
            count,
            delay: ConfigDuration::from_nanos(0),
            jitter: false,
        }
    }

    /// How many more attempts there are after the first.
    pub fn count(&self) -> u32
        ensures { result ≡ count_of self.now }
    {
        match self {
            RetryPolicy::Fixed { count, .. } => *count,
            RetryPolicy::Exponential { count, .. } => *count,
        }
    }
}

impl Default for RetryPolicy {
    ghost use Rattle.std.specs.Prelude.{◌≡◌};
    ghost use Rattle.nextest_config_elements_values.specs.Retries.{without_delay};

    ghost is_default = { λ policy. policy ≡ without_delay 0 };

    /// No more attempts.
    fn default() -> RetryPolicy {
        RetryPolicy::new_without_delay(0)
    }
}

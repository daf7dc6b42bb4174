// A duration of the configuration.
ghost use Rattle.std.specs.Prelude.{◌≡◌, ◌==◌};

use std::time::Duration;

/// A duration of the configuration: whole nanoseconds, at most `u64::MAX` of them.
#[derive(Clone, Copy, Debug, Default, PartialEq, Eq, PartialOrd, Ord, Hash)]
pub struct ConfigDuration {
    nanos: u64,
}

impl ConfigDuration {
    /// The duration of so many nanoseconds.
    pub fn from_nanos(nanos: u64) -> ConfigDuration
        ensures { result.nanos ≡ nanos }
    {
        ConfigDuration { nanos }
    }

    /// Its nanoseconds.
    pub fn as_nanos(self) -> u64
        ensures { result ≡ self.nanos }
    {
        self.nanos
    }

    /// Whether it is none.
    pub fn is_zero(self) -> bool
        ensures { result ≡ (self.nanos == 0) }
    {
        self.nanos == 0
    }
}

impl From<ConfigDuration> for Duration {
    ghost use Rattle.std.specs.Prelude.{◌≡◌};
    ghost use Rattle.std.specs.Duration.{as_nanos};

    ghost from_gives = { λ told duration. as_nanos duration ≡ told.nanos };

    fn from(told: ConfigDuration) -> Duration {
        Duration::from_nanos(told.nanos)
    }
}

// A span of time above 0.
ghost use Rattle.std.specs.Prelude.{◌≡◌, ◌<◌, ◌↔◌, IsNone, IfSome};
ghost use Rattle.std.specs.Duration.{as_nanos};

use std::marker::Model;
use std::time::Duration;

/// A span of time above 0. In a clause it is the `Duration`.
#[derive(Clone, Copy, Debug, PartialEq, Eq)]
pub struct NonZeroDuration(Duration);

impl Model for NonZeroDuration {
    ghost use Rattle.std.specs.Prelude.{◌<◌};
    ghost use Rattle.std.specs.Duration.{as_nanos};
    ghost use Rattle.std.specs.declared.time.Duration.{Duration};

    ghost Value = { Duration };

    ghost view = { λ a. a.0 };

    ghost invariant = { λ a. 0 < as_nanos a.0 };

    ghost inverse = { λ d. record { 0 = d } };
}

impl NonZeroDuration {
    /// `None` exactly for a span of 0.
    pub fn new(duration: Duration) -> Option<Self>
        ensures none { IsNone result ↔ (as_nanos duration ≡ 0) }
        ensures some { IfSome result (λ it. it ≡ duration) }
    {
        if duration.is_zero() {
            None
        } else {
            Some(NonZeroDuration(duration))
        }
    }

    /// The span.
    pub fn get(self) -> Duration
        ensures value { result ≡ self }
        ensures above { 0 < as_nanos result }
    {
        self.0
    }
}

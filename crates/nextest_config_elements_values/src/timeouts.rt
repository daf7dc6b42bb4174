// How long something may take.
ghost use Rattle.std.specs.Prelude.{◌≡◌};
ghost use Rattle.nextest_config_elements_values.specs.Timeouts as timeouts;

use crate::config_duration::ConfigDuration;
use nextest_config_elements_choices::{LeakTimeoutResult, SlowTimeoutResult};

/// When a test or script is slow, and when it is ended for that.
#[derive(Clone, Copy, Debug, PartialEq, Eq)]
pub struct SlowTimeout {
    /// After how long it is slow, above 0 in every accepted configuration.
    pub period: ConfigDuration,
    /// After how many periods it is ended, above 0 in an accepted configuration; `None` where it
    /// never is.
    pub terminate_after: Option<u64>,
    /// How long it may go on once it is told to end.
    pub grace_period: ConfigDuration,
    /// What becomes of one that is ended so.
    pub on_timeout: SlowTimeoutResult,
}

impl SlowTimeout {
    /// Slow after a period, and never ended for that.
    pub fn after(period: ConfigDuration) -> SlowTimeout
        ensures { result ≡ timeouts.slow_after period }
    {
        SlowTimeout {
            period,
            terminate_after: None,
            grace_period: SlowTimeout::default_grace_period(),
            on_timeout: SlowTimeoutResult::Fail,
        }
    }

    /// The grace period where none is set: ten seconds.
    pub fn default_grace_period() -> ConfigDuration
        ensures { result ≡ timeouts.ten_seconds }
    {
        ConfigDuration::from_nanos(10_000_000_000)
    }
}

/// How long handles may stay open behind a process that ended.
#[derive(Clone, Copy, Debug, PartialEq, Eq)]
pub struct LeakTimeout {
    /// How long they are waited for.
    pub period: ConfigDuration,
    /// What becomes of a process that leaves them open for longer.
    pub result: LeakTimeoutResult,
}

/// How long a run may take.
#[derive(Clone, Copy, Debug, PartialEq, Eq)]
pub struct GlobalTimeout {
    /// After how long it is ended, above 0 in every accepted configuration.
    pub period: ConfigDuration,
}

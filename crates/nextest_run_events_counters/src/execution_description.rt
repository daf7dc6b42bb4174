// What the attempts of a test come to.
ghost use Rattle.std.specs.Prelude.{◌≡◌};
ghost use Rattle.nextest_run_events_counters.specs.Description.{description_in, ends_in_success, last_described, level_of, level_of_result, final_level_of, final_level_of_result};

use nextest_config_elements_choices::{
    FinalStatusLevel, FlakyResult, LeakTimeoutResult, SlowTimeoutResult, StatusLevel,
};
use nextest_run_events_outputs::{ExecuteStatus, OutputSpec};
use nextest_run_events_results::ExecutionResultDescription;
use std::alloc::AllocError;

/// What the attempts of a test come to.
#[derive_where(Copy)]
#[derive_where(Debug; S::ChildOutputDesc)]
pub enum ExecutionDescription<'a, S: OutputSpec> {
    /// The only attempt was a success.
    Success {
        /// The attempt.
        single_status: &'a ExecuteStatus<S>,
    },
    /// There were several attempts, and the last was a success.
    Flaky {
        /// The last attempt.
        last_status: &'a ExecuteStatus<S>,
        /// The attempts before it.
        prior_statuses: &'a [ExecuteStatus<S>],
        /// What becomes of such a test.
        result: FlakyResult,
    },
    /// The last attempt was no success.
    Failure {
        /// The first attempt.
        first_status: &'a ExecuteStatus<S>,
        /// The last attempt, the same as the first where there was only one.
        last_status: &'a ExecuteStatus<S>,
        /// The attempts after the first.
        retries: &'a [ExecuteStatus<S>],
    },
}

impl<S: OutputSpec> Clone for ExecutionDescription<'_, S> {
    ghost use Rattle.std.specs.Prelude.{⊤};

    ghost is_clone = { λ original copy. copy ≡ original };

    ghost is_infallible = { λ _. ⊤ };

    fn clone(&self) -> Result<Self, AllocError> {
        Ok(*self)
    }
}

impl<'a, S: OutputSpec> ExecutionDescription<'a, S> {
    /// The level of its line while tests run.
    pub fn status_level(&self) -> StatusLevel
        ensures { result ≡ level_of (description_in self.now) }
    {
        match self {
            ExecutionDescription::Success { single_status } => {
                level_of_result(&single_status.result)
            }
            ExecutionDescription::Flaky { result, .. } => match result {
                FlakyResult::Pass => StatusLevel::Retry,
                FlakyResult::Fail => StatusLevel::Fail,
            },
            ExecutionDescription::Failure { .. } => StatusLevel::Fail,
        }
    }

    /// The level of its line in the summary of a run.
    pub fn final_status_level(&self) -> FinalStatusLevel
        ensures { result ≡ final_level_of (description_in self.now) }
    {
        match self {
            ExecutionDescription::Success { single_status } => {
                if single_status.is_slow {
                    return FinalStatusLevel::Slow;
                }
                final_level_of_result(&single_status.result)
            }
            ExecutionDescription::Flaky { result, .. } => match result {
                FlakyResult::Pass => FinalStatusLevel::Flaky,
                FlakyResult::Fail => FinalStatusLevel::Fail,
            },
            ExecutionDescription::Failure { .. } => FinalStatusLevel::Fail,
        }
    }

    /// Whether the last attempt's output is that of a success, also where the test fails since it
    /// passed late.
    pub fn is_success_for_output(&self) -> bool
        ensures { result ≡ ends_in_success (description_in self.now) }
    {
        match self {
            ExecutionDescription::Success { .. } | ExecutionDescription::Flaky { .. } => true,
            ExecutionDescription::Failure { .. } => false,
        }
    }

    /// The last attempt.
    pub fn last_status(&self) -> &'a ExecuteStatus<S>
        ensures { result.now ≡ last_described (description_in self.now) }
    {
        match self {
            ExecutionDescription::Success { single_status } => single_status,
            ExecutionDescription::Flaky { last_status, .. } => last_status,
            ExecutionDescription::Failure { last_status, .. } => last_status,
        }
    }
}

/// The level of the line of a lone attempt with this result, while tests run.
pub fn level_of_result(ended: &ExecutionResultDescription) -> StatusLevel
    ensures { result ≡ level_of_result ended.now }
{
    match ended {
        ExecutionResultDescription::Pass => StatusLevel::Pass,
        ExecutionResultDescription::Leak {
            result: LeakTimeoutResult::Pass,
        } => StatusLevel::Leak,
        ExecutionResultDescription::Timeout {
            result: SlowTimeoutResult::Pass,
        } => StatusLevel::Slow,
        ExecutionResultDescription::Leak {
            result: LeakTimeoutResult::Fail,
        }
        | ExecutionResultDescription::Fail { .. }
        | ExecutionResultDescription::ExecFail
        | ExecutionResultDescription::Timeout {
            result: SlowTimeoutResult::Fail,
        } => StatusLevel::Fail,
    }
}

/// The level, in the summary of a run, of the line of a lone attempt with this result that wasn't
/// slow.
pub fn final_level_of_result(ended: &ExecutionResultDescription) -> FinalStatusLevel
    ensures { result ≡ final_level_of_result ended.now }
{
    match ended {
        ExecutionResultDescription::Pass => FinalStatusLevel::Pass,
        ExecutionResultDescription::Leak {
            result: LeakTimeoutResult::Pass,
        } => FinalStatusLevel::Leak,
        ExecutionResultDescription::Timeout {
            result: SlowTimeoutResult::Pass,
        } => FinalStatusLevel::Slow,
        ExecutionResultDescription::Leak {
            result: LeakTimeoutResult::Fail,
        }
        | ExecutionResultDescription::Fail { .. }
        | ExecutionResultDescription::ExecFail
        | ExecutionResultDescription::Timeout {
            result: SlowTimeoutResult::Fail,
        } => FinalStatusLevel::Fail,
    }
}

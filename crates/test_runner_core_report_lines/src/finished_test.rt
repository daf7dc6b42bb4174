// A finished test, by its last attempt.
ghost use Rattle.std.specs.Prelude.{◌≡◌, if◌then◌else◌};
ghost use Rattle.nextest_config_elements_choices.specs.declared.status_level.FinalStatusLevel.TheVariants.{Slow};
ghost use Rattle.nextest_run_events_counters.specs.Description.{final_level_of_result};
ghost use Rattle.test_runner_core_report_lines.specs.Due.{finished_in, final_level_of_test, level_of_test};
ghost use Rattle.test_runner_core_report_lines.specs.Texts.{fate_after};

use crate::fate::ReportedFate;
use nextest_config_elements_choices::{FinalStatusLevel, FlakyResult, StatusLevel};
use nextest_run_events_counters::{final_level_of_result, level_of_result};
use nextest_run_events_results::ExecutionResultDescription;

// A finished test: the result and slowness of its last attempt, whether others came before it, and
// its flaky rule.
#[derive(Clone, Copy)]
pub(crate) struct FinishedTest<'s> {
    pub(crate) result: &'s ExecutionResultDescription,
    pub(crate) slow: bool,
    pub(crate) late: bool,
    pub(crate) flaky: FlakyResult,
}

impl FinishedTest<'_> {
    // The level of its line while tests run.
    pub(crate) fn status_level(self) -> StatusLevel
        ensures { result ≡ level_of_test (finished_in self.entry) }
    {
        if !self.result.is_success() {
            return StatusLevel::Fail;
        }
        if !self.late {
            return level_of_result(self.result);
        }
        match self.flaky {
            FlakyResult::Pass => StatusLevel::Retry,
            FlakyResult::Fail => StatusLevel::Fail,
        }
    }

    // And at the end.
    pub(crate) fn final_status_level(self) -> FinalStatusLevel
        ensures { result ≡ final_level_of_test (finished_in self.entry) }
    {
        if !self.result.is_success() {
            return FinalStatusLevel::Fail;
        }
        if !self.late {
            return self.final_level_of_first();
        }
        match self.flaky {
            FlakyResult::Pass => FinalStatusLevel::Flaky,
            FlakyResult::Fail => FinalStatusLevel::Fail,
        }
    }

    // The same of a lone attempt, which is slow before all else.
    fn final_level_of_first(self) -> FinalStatusLevel
        ensures { result ≡ (if self.entry.slow then Slow
            else final_level_of_result self.entry.result.now) }
    {
        if self.slow {
            FinalStatusLevel::Slow
        } else {
            final_level_of_result(self.result)
        }
    }

    // What it came to.
    pub(crate) fn fate(self) -> ReportedFate
        ensures { result ≡ fate_after (finished_in self.entry) }
    {
        if !self.result.is_success() {
            return ReportedFate::Fail;
        }
        if !self.late {
            return ReportedFate::Pass;
        }
        match self.flaky {
            FlakyResult::Pass => ReportedFate::Flaky,
            FlakyResult::Fail => ReportedFate::FlakyFail,
        }
    }
}

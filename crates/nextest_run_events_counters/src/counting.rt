// Counting scripts and tests as they finish.
ghost use Rattle.std.specs.Prelude.{◌≡◌, ◌+◌, ◌^◌, ◌<◌};
ghost use Rattle.nextest_run_events_counters.specs.Counting.{CanCountScript, CanCountTest, with_script, with_attempts, with_test, with_success, with_passing_timeout, with_failure, with_weight};

use super::execution_statuses::ExecutionStatuses;
use super::run_stats::RunStats;
use nextest_config_elements_choices::{
    FailWeight, FlakyResult, LeakTimeoutResult, SlowTimeoutResult,
};
use nextest_run_events_outputs::{OutputSpec, SetupScriptExecuteStatus};
use nextest_run_events_results::ExecutionResultDescription;

impl RunStats {
    /// Counts a setup script that finished. One that took too long counts as that, however it is
    /// judged.
    pub fn on_setup_script_finished<S: OutputSpec>(&mut self, status: &SetupScriptExecuteStatus<S>)
        requires below_maximum { CanCountScript self.old }
        ensures { self.new ≡ with_script status.now.result self.old }
    {
        self.setup_scripts_finished_count += 1;
        match &status.result {
            ExecutionResultDescription::Pass
            | ExecutionResultDescription::Leak {
                result: LeakTimeoutResult::Pass,
            } => self.setup_scripts_passed += 1,
            ExecutionResultDescription::Leak {
                result: LeakTimeoutResult::Fail,
            }
            | ExecutionResultDescription::Fail { .. } => self.setup_scripts_failed += 1,
            ExecutionResultDescription::ExecFail => self.setup_scripts_exec_failed += 1,
            ExecutionResultDescription::Timeout { .. } => self.setup_scripts_timed_out += 1,
        }
    }

    /// Counts a test that finished with these attempts: by the last one, and by whether there were
    /// others before it. If it failed, its weight is added to `failed_weight`, up to `usize::MAX`.
    pub fn on_test_finished<S: OutputSpec>(
        &mut self,
        run_statuses: &ExecutionStatuses<S>,
        weight: FailWeight,
    )
        requires below_maximum { CanCountTest self.old }
        ensures { self.new ≡ with_attempts run_statuses.now weight self.old }
    {
        let last = run_statuses.last_status();
        let late = run_statuses.len() > 1;
        self.count_test(
            &last.result,
            last.is_slow,
            late,
            run_statuses.flaky_result(),
            weight,
        );
    }

    /// Counts a test that finished, of this weight and under this flaky rule, whose last attempt
    /// ended with this result, slow or not, and was late where others came before it.
    pub fn count_test(
        &mut self,
        last_result: &ExecutionResultDescription,
        slow: bool,
        late: bool,
        flaky_result: FlakyResult,
        weight: FailWeight,
    )
        requires below_maximum { CanCountTest self.old }
        ensures { self.new ≡ with_test (record {
          result = last_result.now;
          slow = slow;
          late = late;
          flaky = flaky_result;
        }) weight self.old }
    {
        let late_fails = late && flaky_result == FlakyResult::Fail;
        self.finished_count += 1;
        match last_result {
            ExecutionResultDescription::Pass => {
                self.count_success(slow, late, late_fails, weight);
            }
            ExecutionResultDescription::Leak {
                result: LeakTimeoutResult::Pass,
            } => {
                self.leaky += 1;
                self.count_success(slow, late, late_fails, weight);
            }
            ExecutionResultDescription::Timeout {
                result: SlowTimeoutResult::Pass,
            } => self.count_passing_timeout(slow, late, late_fails, weight),
            ExecutionResultDescription::Leak {
                result: LeakTimeoutResult::Fail,
            } => {
                self.leaky_failed += 1;
                self.count_failure(slow, weight);
            }
            ExecutionResultDescription::Fail { .. } => self.count_failure(slow, weight),
            ExecutionResultDescription::Timeout {
                result: SlowTimeoutResult::Fail,
            } => {
                self.failed_timed_out += 1;
                self.add_weight(weight);
            }
            ExecutionResultDescription::ExecFail => {
                self.exec_failed += 1;
                self.add_weight(weight);
            }
        }
    }

    // An attempt that didn't take too long was a success: a pass, but where it came late against
    // the flaky rule.
    fn count_success(&mut self, slow: bool, late: bool, late_fails: bool, weight: FailWeight)
        requires passed { self.old.passed + 1 < 2 ^ 64 }
        requires passed_slow { self.old.passed_slow + 1 < 2 ^ 64 }
        requires flaky { self.old.flaky + 1 < 2 ^ 64 }
        requires failed { self.old.failed + 1 < 2 ^ 64 }
        requires failed_slow { self.old.failed_slow + 1 < 2 ^ 64 }
        ensures { self.new ≡ with_success slow late late_fails weight self.old }
    {
        if late_fails {
            self.count_failure(slow, weight);
        } else {
            self.passed += 1;
            self.passed_slow += usize::from(slow);
            self.flaky += usize::from(late);
        }
    }

    // An attempt that took too long was a success.
    fn count_passing_timeout(
        &mut self,
        slow: bool,
        late: bool,
        late_fails: bool,
        weight: FailWeight,
    )
        requires passed { self.old.passed + 1 < 2 ^ 64 }
        requires passed_timed_out { self.old.passed_timed_out + 1 < 2 ^ 64 }
        requires flaky { self.old.flaky + 1 < 2 ^ 64 }
        requires failed { self.old.failed + 1 < 2 ^ 64 }
        requires failed_slow { self.old.failed_slow + 1 < 2 ^ 64 }
        ensures { self.new ≡ with_passing_timeout slow late late_fails weight self.old }
    {
        if late_fails {
            self.count_failure(slow, weight);
        } else {
            self.passed += 1;
            self.passed_timed_out += 1;
            self.flaky += usize::from(late);
        }
    }

    // A test failed, however its last attempt ended.
    fn count_failure(&mut self, slow: bool, weight: FailWeight)
        requires failed { self.old.failed + 1 < 2 ^ 64 }
        requires failed_slow { self.old.failed_slow + 1 < 2 ^ 64 }
        ensures { self.new ≡ with_failure slow weight self.old }
    {
        self.failed += 1;
        self.failed_slow += usize::from(slow);
        self.add_weight(weight);
    }

    // What a failing test weighs.
    fn add_weight(&mut self, weight: FailWeight)
        ensures { self.new ≡ with_weight weight self.old }
    {
        self.failed_weight = self.failed_weight.saturating_add(usize::from(weight.get()));
    }
}

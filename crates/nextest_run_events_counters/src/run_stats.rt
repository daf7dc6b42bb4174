// The counters of a run.
ghost use Rattle.std.specs.Prelude.{◌≡◌, ◌^◌, ◌<◌, ◌⊎◌, ◌↔◌, IsTrue, nat_lt};

use super::summary::{FinalRunStats, RunStatsFailureKind};
use nextest_run_events_results::CancelReason;

/// The counters of a run. Each counts finished scripts or tests, but for the weight of the tests
/// that failed; a test counts by its last attempt.
#[derive(Clone, Copy, Debug, Default, PartialEq, Eq)]
pub struct RunStats {
    /// How many tests were to run. More than `finished_count` at the end of a run that was cut
    /// short.
    pub initial_run_count: usize,
    /// How many tests finished.
    pub finished_count: usize,
    /// How many setup scripts were to run.
    pub setup_scripts_initial_count: usize,
    /// How many setup scripts finished.
    pub setup_scripts_finished_count: usize,
    /// Setup scripts that passed, also with handles left open where that counts as a pass.
    pub setup_scripts_passed: usize,
    /// Setup scripts that failed.
    pub setup_scripts_failed: usize,
    /// Setup scripts that could not be started.
    pub setup_scripts_exec_failed: usize,
    /// Setup scripts that took too long, however that is judged.
    pub setup_scripts_timed_out: usize,
    /// Tests that passed: `passed_slow`, `passed_timed_out`, `flaky` and `leaky` ones among them.
    pub passed: usize,
    /// Slow tests that passed.
    pub passed_slow: usize,
    /// Tests that took too long and passed.
    pub passed_timed_out: usize,
    /// Tests that passed on a later attempt than their first.
    pub flaky: usize,
    /// Tests that failed, also by passing late against their flaky rule. `leaky_failed` ones are
    /// among them.
    pub failed: usize,
    /// Slow tests that failed.
    pub failed_slow: usize,
    /// Tests that took too long and failed.
    pub failed_timed_out: usize,
    /// Tests whose last attempt passed with handles left open.
    pub leaky: usize,
    /// Tests that failed since they left handles open.
    pub leaky_failed: usize,
    /// Tests that could not be started.
    pub exec_failed: usize,
    /// Tests that were skipped.
    pub skipped: usize,
    /// What the tests that failed, could not be started, or took too long and failed weigh
    /// together, at most `usize::MAX`.
    pub failed_weight: usize,
    /// Why the run was cancelled, if it was.
    pub cancel_reason: Option<CancelReason>,
}

impl RunStats {
    ghost use Rattle.nextest_run_events_counters.specs.Summary.{failed_setup_script_count, failed_count, failure_at, summary_of};

    /// Whether a setup script or a test failed.
    pub fn has_failures(&self) -> bool
        ensures { IsTrue result
            ↔ ((0 < failed_setup_script_count self.now) ⊎ (0 < failed_count self.now)) }
    {
        self.has_failed_scripts() || self.has_failed_tests()
    }

    // Whether a setup script failed.
    fn has_failed_scripts(&self) -> bool
        ensures { result ≡ nat_lt 0 (failed_setup_script_count self.now) }
    {
        self.setup_scripts_failed > 0
            || self.setup_scripts_exec_failed > 0
            || self.setup_scripts_timed_out > 0
    }

    // Whether a test failed.
    fn has_failed_tests(&self) -> bool
        ensures { result ≡ nat_lt 0 (failed_count self.now) }
    {
        self.failed > 0 || self.exec_failed > 0 || self.failed_timed_out > 0
    }

    /// How many setup scripts failed, could not be started, or took too long.
    pub fn failed_setup_script_count(&self) -> usize
        requires scripts_fit { failed_setup_script_count self.now < 2 ^ 64 }
        ensures { result ≡ failed_setup_script_count self.now }
    {
        self.setup_scripts_failed + self.setup_scripts_exec_failed + self.setup_scripts_timed_out
    }

    /// How many tests failed, could not be started, or took too long and failed.
    pub fn failed_count(&self) -> usize
        requires tests_fit { failed_count self.now < 2 ^ 64 }
        ensures { result ≡ failed_count self.now }
    {
        self.failed + self.exec_failed + self.failed_timed_out
    }

    /// What the counters come to at the end of a run: scripts are looked at before tests, failures
    /// before what did not finish.
    pub fn summarize_final(&self) -> FinalRunStats
        ensures { result ≡ summary_of self.now }
    {
        let at_tests = RunStatsFailureKind::Test {
            initial_run_count: self.initial_run_count,
            not_run: self.initial_run_count.saturating_sub(self.finished_count),
        };
        if self.has_failed_scripts() {
            self.summarize_failure(RunStatsFailureKind::SetupScript)
        } else if self.setup_scripts_finished_count < self.setup_scripts_initial_count {
            FinalRunStats::Cancelled {
                reason: self.cancel_reason,
                kind: RunStatsFailureKind::SetupScript,
            }
        } else if self.has_failed_tests() {
            self.summarize_failure(at_tests)
        } else if self.finished_count < self.initial_run_count {
            FinalRunStats::Cancelled {
                reason: self.cancel_reason,
                kind: at_tests,
            }
        } else if self.finished_count == 0 {
            FinalRunStats::NoTestsRun
        } else {
            FinalRunStats::Success
        }
    }

    // A failure is one of the run's own, or one that a reason from outside stands over.
    fn summarize_failure(&self, kind: RunStatsFailureKind) -> FinalRunStats
        ensures { result ≡ failure_at self.now kind }
    {
        let is_own = match self.cancel_reason {
            Some(reason) => reason.is_inner(),
            None => true,
        };
        if is_own {
            FinalRunStats::Failed { kind }
        } else {
            FinalRunStats::Cancelled {
                reason: self.cancel_reason,
                kind,
            }
        }
    }
}

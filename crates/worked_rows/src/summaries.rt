// Counters as JSON, what they come to, and what sub-runs come to.
ghost use Rattle.std.specs.Prelude.{◌^◌, ◌<◌};

use crate::page::{Page, Whole};
use crate::parts::{Word, list_of};
use crate::{ok, show, some};
use nextest_run_events::{CancelReason, RunFailureStep, RunFinishedStats, RunOutcome, RunStats};
use serde_json::Value;
use std::alloc::Global;

// The number of this name, of 32 bits; 0 where there is none.
fn counter(object: &Value, name: &'static str) -> usize
    ensures { result < 2 ^ 32 }
{
    match object.get(name) {
        Some(value) => small(value) as usize,
        None => 0,
    }
}

fn small(value: &Value) -> u32 {
    match value.as_u64() {
        Some(number) => u32::try_from(number).unwrap_or(0),
        None => 0,
    }
}

// A reason to stop by its name.
impl Word for CancelReason {
    fn of_word(_: Global, word: &str) -> Option<CancelReason> {
        match word {
            "setup-script-failure" => Some(CancelReason::SetupScriptFailure),
            "test-failure" => Some(CancelReason::TestFailure),
            "report-error" => Some(CancelReason::ReportError),
            "test-failure-immediate" => Some(CancelReason::TestFailureImmediate),
            "global-timeout" => Some(CancelReason::GlobalTimeout),
            "signal" => Some(CancelReason::Signal),
            "interrupt" => Some(CancelReason::Interrupt),
            "second-signal" => Some(CancelReason::SecondSignal),
            _ => None,
        }
    }
}

// Counters: what they come to, whether anything failed, and the outcome.
pub(crate) fn summaries(page: &mut Page, input: &str) -> Option<()> {
    let object = ok!(Value::from_str(page.alloc, input));
    summary_told(page, &object)
}

fn summary_told(page: &mut Page, object: &Value) -> Option<()> {
    let cancel_reason = match object.get("reason") {
        Some(value) => Some(some!(Word::of_word(page.alloc, some!(value.as_str())))),
        None => None,
    };
    let stats = RunStats {
        initial_run_count: counter(object, "initial"),
        finished_count: counter(object, "finished"),
        setup_scripts_initial_count: counter(object, "scripts initial"),
        setup_scripts_finished_count: counter(object, "scripts finished"),
        setup_scripts_passed: counter(object, "scripts passed"),
        setup_scripts_failed: counter(object, "scripts failed"),
        setup_scripts_exec_failed: counter(object, "scripts exec-failed"),
        setup_scripts_timed_out: counter(object, "scripts timed out"),
        passed: counter(object, "passed"),
        failed: counter(object, "failed"),
        failed_timed_out: counter(object, "failed timed out"),
        exec_failed: counter(object, "exec-failed"),
        skipped: counter(object, "skipped"),
        cancel_reason,
        ..RunStats::default()
    };
    let summary = RunFinishedStats::Single(stats).final_stats();
    let outcome = RunOutcome::from_final_stats(summary);
    show!(page; Whole(summary), ", failures ", stats.has_failures(), ", ", Whole(outcome));
    Some(())
}

impl Word for RunOutcome {
    fn of_word(_: Global, words: &str) -> Option<RunOutcome> {
        let (test, script) = (RunFailureStep::Test, RunFailureStep::SetupScript);
        match words {
            "success" => Some(RunOutcome::Success),
            "no tests run" => Some(RunOutcome::NoTestsRun),
            "cancelled at a test" => Some(RunOutcome::Cancelled { step: test }),
            "cancelled at a script" => Some(RunOutcome::Cancelled { step: script }),
            "failed at a test" => Some(RunOutcome::Failed { step: test }),
            "failed at a script" => Some(RunOutcome::Failed { step: script }),
            _ => None,
        }
    }
}

// Outcomes of sub-runs: what these come to.
pub(crate) fn outcomes(page: &mut Page, input: &str) -> Option<()> {
    let outcomes = some!(list_of::<RunOutcome>(page.alloc, input, ", "));
    page.debug(RunOutcome::of_sub_runs(outcomes.as_slice()));
    Some(())
}

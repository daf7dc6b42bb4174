// Attempts of tests, and runs of setup scripts.
use crate::calls_again::{CHANGED, TURNS};
use crate::configs::BAR;
use crate::ends::described_end;
use crate::page::{Page, Whole};
use crate::parts::{Word, list_of, two};
use crate::values::word_as;
use crate::{ok, show, some};
use nextest_config_elements::{FailWeight, FlakyResult};
use nextest_run_events::{
    ChildExecutionOutputDescription, ChildOutputDescription, ExecuteStatus, ExecutionStatuses,
    LiveSpec, OutputSpec, RetryData, RunStats, SetupScriptExecuteStatus,
};
use nextest_text::Listing;
use std::alloc::Global;
use std::time::Duration;

// Of an output nothing is kept.
struct NoOutput;

impl OutputSpec for NoOutput {
    type ChildOutputDesc = ();
}

// An attempt that ended in these words, with `slow` behind them or not.
impl Word for ExecuteStatus<NoOutput> {
    fn of_word(alloc: Global, words: &str) -> Option<ExecuteStatus<NoOutput>> {
        let end = words.strip_suffix(" slow");
        Some(ExecuteStatus {
            retry_data: RetryData {
                attempt: 1,
                total_attempts: 1,
            },
            output: ChildExecutionOutputDescription::Output {
                result: None,
                output: (),
                errors: None,
            },
            result: some!(described_end(alloc, end.unwrap_or(words))),
            start_time: None,
            time_taken: Duration::from_nanos(1),
            is_slow: end.is_some(),
            delay_before_start: Duration::ZERO,
            error_summary: None,
            output_error_slice: None,
        })
    }
}

// The flaky rule of a test of weight 1 and how its attempts ended: the two levels of what they come
// to, whether the last output is that of a success, and the counters of a run of this test alone.
pub(crate) fn attempts(page: &mut Page, input: &str) -> Option<()> {
    let (rule, ends) = two(input, ": ");
    let rule = some!(word_as::<FlakyResult>(page.alloc, rule));
    let attempts = some!(list_of::<ExecuteStatus<NoOutput>>(page.alloc, ends, ", "));
    match ExecutionStatuses::from_parts(Listing::from(attempts), rule) {
        Ok(attempts) => attempts_told(page, &ok!(attempts.clone())),
        Err(refusal) => page.show(refusal),
    }
    Some(())
}

fn attempts_told(page: &mut Page, attempts: &ExecutionStatuses<NoOutput>) {
    let described = attempts.describe();
    show!(
        page;
        Whole(described.status_level()), ", ",
        Whole(described.final_status_level()), ", success ",
        described.is_success_for_output(), "; "
    );
    let mut stats = RunStats::default();
    stats.on_test_finished(attempts, FailWeight::default());
    counters_told(page, &stats);
}

// The same of attempts behind which room is made for one more, which ended as is said behind a bar.
pub(crate) fn reserve_one(page: &mut Page, input: &str) -> Option<()> {
    let (input, last) = two(input, BAR);
    let (rule, ends) = two(input, ": ");
    let rule = some!(word_as::<FlakyResult>(page.alloc, rule));
    let ended = some!(list_of::<ExecuteStatus<NoOutput>>(page.alloc, ends, ", "));
    let last = some!(ExecuteStatus::<NoOutput>::of_word(page.alloc, last));
    let mut attempts = ok!(ExecutionStatuses::from_parts(Listing::from(ended), rule));
    let kept = ok!(attempts.clone());
    for turn in TURNS {
        if attempts.reserve_one().is_ok() {
            attempts.push_reserved(last);
            attempts_told(page, &attempts);
            page.show(turn);
            return Some(());
        }
        if attempts != kept {
            page.show(CHANGED);
        }
    }
    None
}

// How a setup script ended: the counters of a run of this script alone.
pub(crate) fn scripts(page: &mut Page, input: &str) -> Option<()> {
    let status: SetupScriptExecuteStatus<LiveSpec> = SetupScriptExecuteStatus {
        result: some!(described_end(page.alloc, input)),
        output: ChildExecutionOutputDescription::Output {
            result: None,
            output: ChildOutputDescription::NotLoaded,
            errors: None,
        },
        start_time: None,
        time_taken: Duration::from_nanos(1),
        is_slow: false,
        env_map: None,
        error_summary: None,
    };
    let mut stats = RunStats::default();
    stats.on_setup_script_finished(&ok!(status.clone()));
    counters_told(page, &stats);
    Some(())
}

// The counters above 0 with their names.
fn counters_told(page: &mut Page, stats: &RunStats) {
    let start = page.len();
    page.counter(start, "initial", stats.initial_run_count)
        .counter(start, "finished", stats.finished_count)
        .counter(start, "scripts initial", stats.setup_scripts_initial_count)
        .counter(
            start,
            "scripts finished",
            stats.setup_scripts_finished_count,
        )
        .counter(start, "scripts passed", stats.setup_scripts_passed)
        .counter(start, "scripts failed", stats.setup_scripts_failed)
        .counter(
            start,
            "scripts exec-failed",
            stats.setup_scripts_exec_failed,
        )
        .counter(start, "scripts timed out", stats.setup_scripts_timed_out)
        .counter(start, "passed", stats.passed)
        .counter(start, "passed slow", stats.passed_slow)
        .counter(start, "passed timed out", stats.passed_timed_out)
        .counter(start, "flaky", stats.flaky)
        .counter(start, "failed", stats.failed)
        .counter(start, "failed slow", stats.failed_slow)
        .counter(start, "failed timed out", stats.failed_timed_out)
        .counter(start, "leaky", stats.leaky)
        .counter(start, "leaky failed", stats.leaky_failed)
        .counter(start, "exec-failed", stats.exec_failed)
        .counter(start, "skipped", stats.skipped)
        .counter(start, "failed weight", stats.failed_weight);
}

impl Page {
    // Writes a counter above 0 with its name, behind those since the answer was so long.
    fn counter(&mut self, start: usize, name: &str, number: usize) -> &mut Page {
        if number > 0 {
            self.separate(start, ", ");
            show!(self; name, " ", number);
        }
        self
    }
}

// An attempt's number and how many there are at most: whether it is the last.
pub(crate) fn last_attempts(page: &mut Page, input: &str) -> Option<()> {
    let (attempt, total_attempts) = two(input, " ");
    let data = RetryData {
        attempt: page.number(attempt),
        total_attempts: page.number(total_attempts),
    };
    page.show(data.is_last_attempt());
    Some(())
}

// Stress runs, and what they still have to do.
use crate::page::{Page, Whole};
use crate::parts::{number, three, two};
use crate::{ok, show, some};
use nextest_run_events::{
    FinalRunStats, NonZeroDuration, RunFinishedStats, RunStatsFailureKind, StressCount,
    StressIndex, StressProgress, StressRemaining, StressRunStats,
};
use std::num::NonZeroU32;
use std::time::Duration;
use uuid::Uuid;

// How many sub-runs failed and what the last one came to: what the run comes to, and its last
// sub-run.
pub(crate) fn stress_ends(page: &mut Page, input: &str) -> Option<()> {
    let (failed_count, last) = two(input, " ");
    let last_final_stats = match last {
        "no tests run" => FinalRunStats::NoTestsRun,
        _ => FinalRunStats::Failed {
            kind: RunStatsFailureKind::SetupScript,
        },
    };
    let stats = StressRunStats {
        completed: StressIndex {
            current: 1,
            total: None,
        },
        success_count: 1,
        failed_count: page.number(failed_count),
        last_final_stats,
    };
    let all = stats.summarize_final();
    show!(page; Whole(all), ", ", Whole(RunFinishedStats::Stress(stats).final_stats()));
    Some(())
}

// A number above 0; `-` and 0 are none.
fn total_of(word: &str) -> Option<NonZeroU32> {
    NonZeroU32::new(some!(number(word)))
}

// A span of time as its seconds and nanoseconds.
fn span_of(seconds: &str, nanos: &str) -> Option<Duration> {
    let nanos = some!(number(nanos));
    if nanos > 999_999_999 {
        return None;
    }
    Some(Duration::new(ok!(seconds.parse::<u64>()), nanos))
}

// A run by its number of sub-runs, `-` where it has no end, and how many were completed; or by its
// seconds, and how many seconds and nanoseconds it took.
fn progress_of(input: &str) -> Option<StressProgress> {
    let (kind, total, rest) = three(input);
    if kind == "count" {
        return Some(StressProgress::Count {
            total: match total_of(total) {
                Some(count) => StressCount::Count { count },
                None => StressCount::Infinite,
            },
            elapsed: Duration::ZERO,
            completed: some!(number(rest)),
        });
    }
    let (seconds, nanos) = two(rest, " ");
    Some(StressProgress::Time {
        total: some!(span_of(total, "0")),
        elapsed: some!(span_of(seconds, nanos)),
        completed: 3,
    })
}

// What is left of a run: `sub-runs` and how many, `time` and its seconds and nanoseconds, or
// `endless`; nothing in other words.
fn left_of(words: &str) -> Option<StressRemaining> {
    let (kind, amount, nanos) = three(words);
    match kind {
        "endless" => Some(StressRemaining::Infinite),
        "sub-runs" => Some(StressRemaining::Count(some!(total_of(amount)))),
        _ => Some(StressRemaining::Time(some!(NonZeroDuration::new(some!(span_of(
            amount, nanos
        )))))),
    }
}

// Such a run, and what is left of it: whether that is so.
pub(crate) fn stress_remaining(page: &mut Page, input: &str) -> Option<()> {
    let (progress, left) = two(input, " leaves ");
    page.show(some!(progress_of(progress)).remaining() == left_of(left));
    Some(())
}

// A run's id, and the run: the id of its next sub-run.
pub(crate) fn stress_names(page: &mut Page, input: &str) -> Option<()> {
    let (run_id, progress) = two(input, " ");
    let (run_id, progress) = (ok!(Uuid::parse_str(run_id)), some!(progress_of(progress)));
    page.show(ok!(progress.unique_id(page.alloc, &run_id)));
    Some(())
}

// How many sub-runs there are, `-` where that isn't known: the same as a plain number.
pub(crate) fn stress_totals(page: &mut Page, input: &str) -> Option<()> {
    let index = StressIndex {
        current: 0,
        total: total_of(input),
    };
    page.debug(index.total_get());
    Some(())
}

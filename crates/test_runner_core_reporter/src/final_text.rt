// Reporting the final text of a run.
ghost use Rattle.std.specs.Prelude.{◌≡◌, ◌^◌, ◌<◌, [], ◌∷◌, slice_get, string_bytes};
ghost use Rattle.test_runner_core_reporter.specs.Parts.{Said};
ghost use Rattle.test_runner_core_reporter.specs.Final.{final_parts, script_parts, part_of_shown, shown_tests, shows_of, test_parts};
ghost use Rattle.test_runner_core_reporter.specs.Keeping.{is_settled, is_settled_by};
ghost use Rattle.test_runner_core_reporter.specs.RunEnd.{end_of, end_text};
ghost use Rattle.test_runner_core_reporter.specs.Writes.{WritesParts, CountsWriteFailures};

use crate::fault::ReportFault;
use crate::reporting::{report_done, report_script, report_shown, report_words};
use crate::run_end::RunEnd;
use nextest_run_events_visibility::{OutputOnTestFinished, OutputStoreFinal, StatusLevels};
use std::alloc::Global;
use test_runner_core_plan::{Plan, PlanTest};
use test_runner_core_report_lines::{ReportedTest, Shows};
use test_runner_core_session::RecordSession;
use test_runner_core_streams::ReportWriter;

/// A test of a plan, as far as its run is, with what is set of what is shown of it.
#[derive(Drop)]
pub struct ShownTest<'s> {
    /// What is set of what is shown of it.
    pub shows: Shows,
    /// The test.
    pub test: ReportedTest<'s>,
}

// What is set of what is shown of a test of a plan.
#[tactic(auto, unfolding(crate::specs::Final::shows_of))]
fn shows_of(plan: &Plan, test: &PlanTest) -> Shows
    ensures { result ≡ shows_of plan.now test.now }
{
    Shows {
        levels: StatusLevels {
            status_level: plan.levels.status_level,
            final_status_level: plan.levels.final_status_level,
        },
        success_output: test.settings.success_output,
        failure_output: test.settings.failure_output,
    }
}

// The test at a place of the plan, as far as the run is, with what is set of what is shown of it.
pub(crate) fn shown_test_at<'s>(
    session: &'s RecordSession<'_>,
    place: usize,
) -> Option<ShownTest<'s>>
    ensures { result ≡ slice_get
        (shown_tests session.now.plan session.now.plan.tests session.now.run.tests) place }
{
    let plan = session.plan();
    let tests = plan.tests.as_slice();
    let test = tests.get(place)?;
    let Some(kept) = session.kept_at(place) else {
        return None;
    };
    let records = kept.attempts.as_slice();
    Some(ShownTest {
        shows: shows_of(plan, test),
        test: ReportedTest::new(test.instance.as_ref(), kept.plan, kept.mark, records),
    })
}

/// Whether the test at a place is finished, and the final text won't have its outputs: so no report
/// needs them any more.
pub fn is_settled(session: &RecordSession<'_>, place: usize) -> bool
    ensures { result ≡ is_settled session.now.plan session.now.run place }
{
    let Some(shown) = shown_test_at(session, place) else {
        return false;
    };
    is_settled_by(shown.test.due(&shown.shows))
}

// Whether a test of which this is due is finished, and the final text won't have its outputs.
fn is_settled_by(due: Option<OutputOnTestFinished>) -> bool
    ensures { result ≡ is_settled_by due }
{
    match due {
        Some(due) => match due.store_final {
            OutputStoreFinal::Yes { display_output } => !display_output,
            OutputStoreFinal::No => true,
        },
        None => false,
    }
}

/// Reports the final text of a run.
pub fn report_final<W: ReportWriter>(
    alloc: Global,
    text: &mut String,
    report: &mut W,
    session: &RecordSession<'_>,
) -> Result<(), ReportFault>
    requires writes_fit { W.failures report.old < 2 ^ 63 }
    ensures writes { WritesParts result (final_parts session.now.plan session.now.run)
        (W.taken report.old) (string_bytes text.old) (W.taken report.new) (string_bytes text.new) }
    ensures failures { CountsWriteFailures result (W.failures report.old) (W.failures report.new)
        (W.last_failed report.new) }
{
    report_end(alloc, text, report, session)?;
    report_scripts(text, report, session)?;
    report_tests(text, report, session)
}

// Reports where a run ended.
fn report_end<W: ReportWriter>(
    alloc: Global,
    text: &mut String,
    report: &mut W,
    session: &RecordSession<'_>,
) -> Result<(), ReportFault>
    requires writes_fit { W.failures report.old < 2 ^ 63 }
    ensures writes { WritesParts result (Said (end_text (end_of session.now.run)) ∷ [])
        (W.taken report.old) (string_bytes text.old) (W.taken report.new) (string_bytes text.new) }
    ensures failures { CountsWriteFailures result (W.failures report.old) (W.failures report.new)
        (W.last_failed report.new) }
{
    let end = RunEnd {
        outcome: session.summary(),
        stats: session.stats(),
    };
    let words = format!(in alloc; "{end}")?;
    report_words(text, report, words.as_str())
}

// Reports the scripts in the plan's order.
fn report_scripts<W: ReportWriter>(
    text: &mut String,
    report: &mut W,
    session: &RecordSession<'_>,
) -> Result<(), ReportFault>
    requires writes_fit { W.failures report.old < 2 ^ 63 }
    ensures writes { WritesParts result (script_parts session.now.plan session.now.run)
        (W.taken report.old) (string_bytes text.old) (W.taken report.new) (string_bytes text.new) }
    ensures failures { CountsWriteFailures result
        (W.failures report.old) (W.failures report.new) (W.last_failed report.new) }
{
    let scripts = session.plan().scripts.as_slice();
    for (place, id) in scripts.iter().enumerate() {
        report_script(text, report, id.as_str(), session.ended_script(place))?;
    }
    Ok(())
}

// Reports the tests in the plan's order.
fn report_tests<W: ReportWriter>(
    text: &mut String,
    report: &mut W,
    session: &RecordSession<'_>,
) -> Result<(), ReportFault>
    requires writes_fit { W.failures report.old < 2 ^ 63 }
    ensures writes { WritesParts result (test_parts session.now.plan session.now.run)
        (W.taken report.old) (string_bytes text.old) (W.taken report.new) (string_bytes text.new) }
    ensures failures { CountsWriteFailures result (W.failures report.old) (W.failures report.new)
        (W.last_failed report.new) }
{
    for place in 0..session.plan().tests.len() {
        report_shown_at(text, report, session, place)?;
    }
    Ok(())
}

// Reports the part of the test at a place.
fn report_shown_at<W: ReportWriter>(
    text: &mut String,
    report: &mut W,
    session: &RecordSession<'_>,
    place: usize,
) -> Result<(), ReportFault>
    requires writes_fit { W.failures report.old < 2 ^ 63 }
    ensures writes { WritesParts result (part_of_shown (slice_get
        (shown_tests session.now.plan session.now.plan.tests session.now.run.tests) place))
        (W.taken report.old) (string_bytes text.old) (W.taken report.new) (string_bytes text.new) }
    ensures failures { CountsWriteFailures result (W.failures report.old) (W.failures report.new)
        (W.last_failed report.new) }
{
    match shown_test_at(session, place) {
        Some(told) => report_shown(text, report, &told.shows, &told.test),
        None => Ok(()),
    }
}

// Reporting what the steps of a run finish.
ghost use Rattle.std.specs.Prelude.{◌≡◌, ◌^◌, ◌<◌, [], ◌∷◌, slice_get, string_bytes, if◌then◌else◌};
ghost use Rattle.std.specs.Option.{option_map, option_map_or};
ghost use Rattle.test_runner_core_run_model.specs.Finishing.{finished_places, is_stopped_at, stopped_places};
ghost use Rattle.test_runner_core_reporter.specs.Steps.{all_done, done_at};
ghost use Rattle.test_runner_core_reporter.specs.Writes.{WritesParts, CountsWriteFailures};

use crate::fault::ReportFault;
use crate::final_text::shown_test_at;
use crate::reporting::report_done;
use test_runner_core_run_model::{Finished, Mark};
use test_runner_core_session::RecordSession;
use test_runner_core_streams::ReportWriter;

/// Reports what the step that a run took last finished: the test of its attempt, and then, in the
/// plan's order, those that its stop finished.
pub fn report_step<W: ReportWriter>(
    text: &mut String,
    report: &mut W,
    session: &RecordSession<'_>,
    finished: Finished,
) -> Result<(), ReportFault>
    requires writes_fit { W.failures report.old < 2 ^ 63 }
    ensures writes { WritesParts result
        (all_done session.now.plan session.now.run (finished_places finished session.now.run))
        (W.taken report.old) (string_bytes text.old) (W.taken report.new) (string_bytes text.new) }
    ensures failures { CountsWriteFailures result (W.failures report.old) (W.failures report.new)
        (W.last_failed report.new) }
{
    report_ended(text, report, session, finished.ended)?;
    report_if_stopped(text, report, session, finished.stops)
}

// Reports the tests that a stop finished, if there was one.
fn report_if_stopped<W: ReportWriter>(
    text: &mut String,
    report: &mut W,
    session: &RecordSession<'_>,
    stops: bool,
) -> Result<(), ReportFault>
    requires writes_fit { W.failures report.old < 2 ^ 63 }
    ensures writes { WritesParts result (all_done session.now.plan session.now.run
        (if stops then stopped_places session.now.run else [])) (W.taken report.old)
        (string_bytes text.old) (W.taken report.new) (string_bytes text.new) }
    ensures failures { CountsWriteFailures result (W.failures report.old) (W.failures report.new)
        (W.last_failed report.new) }
{
    if !stops {
        return Ok(());
    }
    report_stopped(text, report, session)
}

// Reports the test of an attempt that ended, where that finished it.
fn report_ended<W: ReportWriter>(
    text: &mut String,
    report: &mut W,
    session: &RecordSession<'_>,
    ended: Option<usize>,
) -> Result<(), ReportFault>
    requires writes_fit { W.failures report.old < 2 ^ 63 }
    ensures writes { WritesParts result
        (all_done session.now.plan session.now.run (option_map_or (λ place. place ∷ []) ended []))
        (W.taken report.old) (string_bytes text.old) (W.taken report.new) (string_bytes text.new) }
    ensures failures { CountsWriteFailures result (W.failures report.old) (W.failures report.new)
        (W.last_failed report.new) }
{
    match ended {
        Some(place) => report_at(text, report, session, place),
        None => Ok(()),
    }
}

// Reports the tests that a stop finished, in the plan's order.
fn report_stopped<W: ReportWriter>(
    text: &mut String,
    report: &mut W,
    session: &RecordSession<'_>,
) -> Result<(), ReportFault>
    requires writes_fit { W.failures report.old < 2 ^ 63 }
    ensures writes { WritesParts result
        (all_done session.now.plan session.now.run (stopped_places session.now.run))
        (W.taken report.old) (string_bytes text.old) (W.taken report.new) (string_bytes text.new) }
    ensures failures { CountsWriteFailures result (W.failures report.old) (W.failures report.new)
        (W.last_failed report.new) }
{
    for place in 0..session.plan().tests.len() {
        let stopped = is_stopped_at(session, place);
        report_if(text, report, session, place, stopped)?;
    }
    Ok(())
}

// Reports the test at a place, where it is to be reported.
fn report_if<W: ReportWriter>(
    text: &mut String,
    report: &mut W,
    session: &RecordSession<'_>,
    place: usize,
    is_told: bool,
) -> Result<(), ReportFault>
    requires writes_fit { W.failures report.old < 2 ^ 63 }
    ensures writes { WritesParts result
        (all_done session.now.plan session.now.run (if is_told then place ∷ [] else []))
        (W.taken report.old) (string_bytes text.old) (W.taken report.new) (string_bytes text.new) }
    ensures failures { CountsWriteFailures result (W.failures report.old) (W.failures report.new)
        (W.last_failed report.new) }
{
    if !is_told {
        return Ok(());
    }
    report_at(text, report, session, place)
}

// Reports the test at a place.
fn report_at<W: ReportWriter>(
    text: &mut String,
    report: &mut W,
    session: &RecordSession<'_>,
    place: usize,
) -> Result<(), ReportFault>
    requires writes_fit { W.failures report.old < 2 ^ 63 }
    ensures writes { WritesParts result (done_at session.now.plan session.now.run place)
        (W.taken report.old) (string_bytes text.old) (W.taken report.new) (string_bytes text.new) }
    ensures failures { CountsWriteFailures result (W.failures report.old) (W.failures report.new)
        (W.last_failed report.new) }
{
    match shown_test_at(session, place) {
        Some(told) => report_done(text, report, &told.shows, &told.test),
        None => Ok(()),
    }
}

// How far the test at a place is.
fn mark_at(session: &RecordSession<'_>, place: usize) -> Option<Mark>
    ensures { result ≡ option_map (λ test. test.mark) (slice_get session.now.run.tests place) }
{
    let Some(kept) = session.kept_at(place) else {
        return None;
    };
    Some(kept.mark)
}

// Whether the test at a place is over under a reason.
fn is_stopped_at(session: &RecordSession<'_>, place: usize) -> bool
    ensures { result ≡ is_stopped_at session.now.run.tests place }
{
    match mark_at(session, place) {
        Some(Mark::Finished(reason)) => reason.is_some(),
        _ => false,
    }
}

// What is kept of the record of an attempt.
ghost use Rattle.std.specs.Prelude.{◌≡◌, None, IfOk};
ghost use Rattle.std.specs.Bool.{OnTrue};
ghost use Rattle.nextest_run_events_results.specs.declared.record.RecordOutput.TheVariants as wrote;
ghost use Rattle.test_runner_core_line_syntax.specs.Lent.{output_meant, record_meant};
ghost use Rattle.test_runner_core_reporter.specs.Keeping.{hides_success, is_never_shown, record_to_keep};
ghost use Rattle.test_runner_core_run_state.specs.Records.{unwritten};
ghost use Rattle.test_runner_core_session.specs.Session.{place_in};

use nextest_config_elements_choices::TestOutputDisplay;
use nextest_run_events_results::{Record, TestInstanceId};
use std::alloc::{AllocError, Global};
use test_runner_core_line_syntax::{LentOutput, LentRecord, LentStream};
use test_runner_core_session::RecordSession;

// The record of an attempt of a test, as far as a report can show it: without what was written in a
// success that is never shown.
pub(crate) fn record_to_keep(
    alloc: Global,
    session: &RecordSession<'_>,
    test: TestInstanceId<'_>,
    record: LentRecord<'_>,
) -> Result<Record, AllocError>
    ensures { IfOk result (λ it. it ≡ record_to_keep session.now.plan.tests
        (place_in session.now.plan test.entry.binary_id.now test.entry.test_name.now)
        (record_meant «record».entry)) }
{
    if is_unwritten(record.output) {
        return record.own(alloc);
    }
    if !record.result.is_success() {
        return record.own(alloc);
    }
    if hides_success(session, test) {
        return unwritten(record).own(alloc);
    }
    record.own(alloc)
}

// Whether no stream was captured.
fn is_unwritten(output: LentOutput<'_>) -> bool
    ensures { OnTrue result (output_meant output.entry ≡ wrote.Streams None None) }
{
    match output {
        LentOutput::Streams {
            out: LentStream::NotCaptured,
            err: LentStream::NotCaptured,
        } => true,
        _ => false,
    }
}

// Whether the test of a name shows nothing of its successes.
fn hides_success(session: &RecordSession<'_>, test: TestInstanceId<'_>) -> bool
    ensures { result ≡ hides_success session.now.plan.tests
        (place_in session.now.plan test.entry.binary_id.now test.entry.test_name.now) }
{
    match session.plan().tests.as_slice().get(session.place(test)) {
        Some(planned) => is_never_shown(planned.settings.success_output),
        None => false,
    }
}

// Whether it is shown neither as a test finishes nor at the end.
fn is_never_shown(display: TestOutputDisplay) -> bool
    ensures { result ≡ is_never_shown display }
{
    match display {
        TestOutputDisplay::Never => true,
        TestOutputDisplay::Immediate
        | TestOutputDisplay::ImmediateFinal
        | TestOutputDisplay::Final => false,
    }
}

// A record without what was written.
fn unwritten(lent: LentRecord<'_>) -> LentRecord<'_>
    ensures { record_meant result ≡ unwritten (record_meant lent.entry) }
{
    LentRecord {
        result: lent.result,
        slow: lent.slow,
        nanos: lent.nanos,
        output: LentOutput::Streams {
            out: LentStream::NotCaptured,
            err: LentStream::NotCaptured,
        },
    }
}

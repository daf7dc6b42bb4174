// The outputs of an attempt and of a script.
ghost use Rattle.std.specs.Prelude.{◌≡◌, ◌∷◌, ◌++◌, [], OnOk, decimal, length, option_copied, string_bytes};
ghost use Rattle.hex.specs.Hex.{encode_lower};
ghost use Rattle.nextest_run_events_results.specs.Result.{is_success};
ghost use Rattle.test_runner_core_run_state.specs.Statuses.{script_record_in};
ghost use Rattle.test_runner_core_report_lines.specs.Texts.{IsOutputs, IsShownSlice, line, message_line, part_line, script_outputs, slice_line, stream_line, written_text};
ghost use Rattle.test_runner_core_report_lines.specs.Writing.{Adds, Extends};
ghost use Rattle.test_runner_core_report_lines.specs.Written.{written_meant};

use crate::writing::{push_feed, push_field, push_hex, push_text};
use crate::written::Written;
use itoa::Buffer;
use nextest_run_events_outputs::{LiveSpec, SetupScriptExecuteStatus};
use nextest_run_events_slices::{ByteSubslice, TestOutputErrorSlice};
use std::alloc::AllocError;
use test_runner_core_run_state::KeptRecord;

// Adds the outputs of an attempt that ended so.
pub(crate) fn push_outputs(text: &mut String, ended: &KeptRecord) -> Result<(), AllocError>
    ensures ok { OnOk result
        (Adds (IsOutputs ended.now) (string_bytes text.old) (string_bytes text.new)) }
    ensures grows { Extends (string_bytes text.old) (string_bytes text.new) }
{
    push_written(text, Written::in_record(ended))?;
    push_slice(text, slice_of(ended))
}

// Adds what an attempt or a script wrote, or why it could not be started.
fn push_written(text: &mut String, written: Written<'_>) -> Result<(), AllocError>
    ensures ok { OnOk result (string_bytes text.new
        ≡ string_bytes text.old ++ written_text (written_meant written.entry)) }
    ensures grows { Extends (string_bytes text.old) (string_bytes text.new) }
{
    push_stream(text, "out", written.out())?;
    push_stream(text, "err", written.err())?;
    push_message(text, written)
}

// Adds what a script wrote, or why it could not be started; nothing of a success, or of one that
// didn't end.
pub(crate) fn push_script_outputs(
    text: &mut String,
    status: Option<&SetupScriptExecuteStatus<LiveSpec>>,
) -> Result<(), AllocError>
    ensures ok { OnOk result (string_bytes text.new
        ≡ string_bytes text.old ++ script_outputs (script_record_in status.entry)) }
    ensures grows { Extends (string_bytes text.old) (string_bytes text.new) }
{
    match status {
        Some(status) if !status.result.is_success() => {
            push_written(text, Written::in_status(&status.output))
        }
        _ => Ok(()),
    }
}

// Adds the line of a stream, where it was captured.
fn push_stream(text: &mut String, word: &str, stream: Option<&[u8]>) -> Result<(), AllocError>
    ensures ok { OnOk result (string_bytes text.new
        ≡ string_bytes text.old ++ stream_line word.now (option_copied stream.entry)) }
    ensures grows { Extends (string_bytes text.old) (string_bytes text.new) }
{
    match stream {
        Some(bytes) => push_hex_line(text, word, bytes),
        None => Ok(()),
    }
}

// Adds a line of a word and bytes in hex.
fn push_hex_line(text: &mut String, word: &str, bytes: &[u8]) -> Result<(), AllocError>
    ensures ok { OnOk result (string_bytes text.new
        ≡ string_bytes text.old ++ line (word.now ∷ encode_lower bytes.now ∷ [])) }
    ensures grows { Extends (string_bytes text.old) (string_bytes text.new) }
{
    push_text(text, word)?;
    push_text(text, "\t")?;
    push_hex(text, bytes)?;
    push_feed(text)
}

// Adds the line that says why an attempt or a script could not be started.
fn push_message(text: &mut String, written: Written<'_>) -> Result<(), AllocError>
    ensures ok { OnOk result (string_bytes text.new
        ≡ string_bytes text.old ++ message_line (written_meant written.entry)) }
    ensures grows { Extends (string_bytes text.old) (string_bytes text.new) }
{
    match written {
        Written::Streams { .. } => Ok(()),
        Written::Message(message) => push_hex_line(text, "error", message.as_bytes()),
    }
}

// The part of an attempt's outputs that shows its error; none of a success.
fn slice_of(ended: &KeptRecord) -> Option<TestOutputErrorSlice<'_>>
    ensures { IsShownSlice (is_success ended.now.result) ended.now.output result }
{
    if ended.is_success() {
        return None;
    }
    let written = Written::in_record(ended);
    TestOutputErrorSlice::heuristic_extract(written.out(), written.err())
}

// Adds the line of a part of an output, if there is one.
fn push_slice(text: &mut String, slice: Option<TestOutputErrorSlice<'_>>) -> Result<(), AllocError>
    ensures ok { OnOk result
        (string_bytes text.new ≡ string_bytes text.old ++ slice_line slice.entry) }
    ensures grows { Extends (string_bytes text.old) (string_bytes text.new) }
{
    let Some(slice) = slice else {
        return Ok(());
    };
    match slice {
        TestOutputErrorSlice::PanicMessage { stderr_subslice } => {
            push_part(text, "panic", stderr_subslice)
        }
        TestOutputErrorSlice::ErrorStr { stderr_subslice } => {
            push_part(text, "error", stderr_subslice)
        }
        TestOutputErrorSlice::ShouldPanic { stdout_subslice } => {
            push_part(text, "should-panic", stdout_subslice)
        }
    }
}

// Adds the line of a part of an output.
fn push_part(text: &mut String, kind: &str, part: ByteSubslice<'_>) -> Result<(), AllocError>
    ensures ok { OnOk result
        (string_bytes text.new ≡ string_bytes text.old ++ part_line kind.now part.entry) }
    ensures grows { Extends (string_bytes text.old) (string_bytes text.new) }
{
    push_text(text, "slice")?;
    push_field(text, kind)?;
    push_place(text, part)?;
    push_feed(text)
}

// Adds a tab, where a part begins, a tab and how long it is.
fn push_place(text: &mut String, part: ByteSubslice<'_>) -> Result<(), AllocError>
    ensures ok { OnOk result (string_bytes text.new ≡ string_bytes text.old
        ++ 9 ∷ (decimal part.entry.start ++ 9 ∷ decimal (length part.entry.slice.now))) }
    ensures grows { Extends (string_bytes text.old) (string_bytes text.new) }
{
    push_field(text, Buffer::new().format(part.start))?;
    push_field(text, Buffer::new().format(part.slice.len()))
}

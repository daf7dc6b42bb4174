// Which parts of a line have a spelling, and writing them.
ghost use Rattle.std.specs.Prelude.{◌≡◌, ◌↔◌, ◌∷◌, ◌++◌, IsTrue, OnOk, string_bytes};
ghost use Rattle.std.specs.Str.{IsUtf8};
ghost use Rattle.hex.specs.Hex.{IsBytes};
ghost use Rattle.nextest_run_events_results.specs.declared.record.RecordOutput.TheVariants.{Message};
ghost use Rattle.test_runner_core_line_syntax.specs.Spelling.{IsField, SpellsFailure, SpellsHex, SpellsResult, SpellsSlow, SpellsStream, Pairs, is_exec_fail, has_message};
ghost use Rattle.test_runner_core_line_syntax.specs.Writing.{Appends, IsSpellable, SpellsBothStreams, SpellsRecordText};

use super::signals::{is_name_of, is_signal};
use itoa::Buffer;
use nextest_config_elements_choices::{LeakTimeoutResult, SlowTimeoutResult};
use nextest_run_events_results::{
    AbortDescription, ExecutionResultDescription, FailureDescription, Record, RecordOutput,
};
use nextest_text::{Listing, Text};
use std::alloc::{AllocError, Global};

/// Whether the text can be a field: it has neither a tab nor a line feed in it.
pub fn is_field(text: &str) -> bool
    ensures plain { IsTrue result ↔ IsField text.now }
    ensures utf8 { IsUtf8 text.now }
{
    !text.contains('\t') && !text.contains('\n')
}

/// Whether both texts can be fields.
pub fn are_fields(first: &str, second: &str) -> bool
    ensures plain { IsTrue result ↔ (IsField first.now × IsField second.now) }
    ensures first_utf8 { IsUtf8 first.now }
    ensures second_utf8 { IsUtf8 second.now }
{
    is_field(first) && is_field(second)
}

fn failure_is_spellable(told: &FailureDescription) -> bool
    ensures { IsTrue result ↔ IsSpellable (SpellsFailure told.now) }
{
    match told {
        FailureDescription::ExitCode { code } => *code != 0,
        FailureDescription::Abort { abort } => match abort {
            AbortDescription::UnixSignal { signal, name } => {
                is_signal(*signal) && is_name_of(name, *signal)
            }
            AbortDescription::WindowsNtStatus { .. } => false,
            AbortDescription::WindowsJobObject => false,
        },
    }
}

fn result_is_spellable(told: &ExecutionResultDescription) -> bool
    ensures { IsTrue result ↔ IsSpellable (SpellsResult told.now) }
{
    match told {
        ExecutionResultDescription::Pass => true,
        ExecutionResultDescription::Leak { .. } => true,
        ExecutionResultDescription::Fail { failure, .. } => failure_is_spellable(failure),
        ExecutionResultDescription::ExecFail => true,
        ExecutionResultDescription::Timeout { .. } => true,
    }
}

// Every byte fits its type, so all bytes have a spelling.
fn bytes_fit(bytes: &[u8])
    ensures { IsBytes bytes.now }
{}

// So has every stream.
fn stream_fits(told: &Option<Listing<u8>>)
    ensures { IsSpellable (SpellsStream told.now) }
{
    match told {
        None => {}
        Some(bytes) => bytes_fit(bytes.as_slice()),
    }
}

// So has every message.
fn message_fits(message: &Text)
    ensures { IsSpellable (SpellsBothStreams (Message message.now)) }
{
    bytes_fit(message.as_str().as_bytes());
}

// So has every output.
fn output_fits(told: &RecordOutput)
    ensures { IsSpellable (SpellsBothStreams told.now) }
{
    match told {
        RecordOutput::Streams { out, err } => {
            stream_fits(out);
            stream_fits(err);
        }
        RecordOutput::Message(message) => message_fits(message),
    }
}

fn has_message(told: &RecordOutput) -> bool
    ensures { result ≡ has_message told.now }
{
    match told {
        RecordOutput::Message(_) => true,
        RecordOutput::Streams { .. } => false,
    }
}

fn is_exec_fail(told: &ExecutionResultDescription) -> bool
    ensures { result ≡ is_exec_fail told.now }
{
    match told {
        ExecutionResultDescription::ExecFail => true,
        ExecutionResultDescription::Pass => false,
        ExecutionResultDescription::Leak { .. } => false,
        ExecutionResultDescription::Fail { .. } => false,
        ExecutionResultDescription::Timeout { .. } => false,
    }
}

// Whether the output is one that goes with the result.
fn is_paired(told: &ExecutionResultDescription, output: &RecordOutput) -> bool
    ensures { IsTrue result ↔ Pairs told.now output.now }
{
    is_exec_fail(told) == has_message(output)
}

/// Whether the record has a spelling.
pub fn record_is_spellable(told: &Record) -> bool
    ensures { IsTrue result ↔ IsSpellable (SpellsRecordText told.now) }
{
    // Every number of nanoseconds has a spelling: this read shows that it fits its type.
    let _nanos = told.nanos;
    output_fits(&told.output);
    result_is_spellable(&told.result) && is_paired(&told.result, &told.output)
}

/// Adds a tab and the field.
pub fn push_field(line: &mut String, field: &str) -> Result<(), AllocError>
    ensures { OnOk result (string_bytes line.new ≡ string_bytes line.old ++ 9 ∷ field.now) }
{
    line.push('\t')?;
    line.push_str(field)
}

fn push_failure(line: &mut String, told: &FailureDescription) -> Result<(), AllocError>
    requires { IsSpellable (SpellsFailure told.now) }
    ensures { OnOk result
        (Appends (SpellsFailure told.now) (string_bytes line.old) (string_bytes line.new)) }
{
    match told {
        FailureDescription::ExitCode { code } => {
            push_field(line, "fail:")?;
            line.push_str(Buffer::new().format(*code))
        }
        FailureDescription::Abort { abort } => match abort {
            AbortDescription::UnixSignal { signal, .. } => {
                push_field(line, "abort:")?;
                line.push_str(Buffer::new().format(*signal))
            }
            AbortDescription::WindowsNtStatus { .. } => unreachable!(),
            AbortDescription::WindowsJobObject => unreachable!(),
        },
    }
}

fn push_result(line: &mut String, told: &ExecutionResultDescription) -> Result<(), AllocError>
    requires { IsSpellable (SpellsResult told.now) }
    ensures { OnOk result
        (Appends (SpellsResult told.now) (string_bytes line.old) (string_bytes line.new)) }
{
    match told {
        ExecutionResultDescription::Pass => push_field(line, "pass"),
        ExecutionResultDescription::Leak { result } => match result {
            LeakTimeoutResult::Pass => push_field(line, "leak:pass"),
            LeakTimeoutResult::Fail => push_field(line, "leak:fail"),
        },
        ExecutionResultDescription::Fail { failure, leaked } => {
            push_failure(line, failure)?;
            line.push_str(if *leaked { ":leaked" } else { "" })
        }
        ExecutionResultDescription::ExecFail => push_field(line, "exec-fail"),
        ExecutionResultDescription::Timeout { result } => match result {
            SlowTimeoutResult::Pass => push_field(line, "timeout:pass"),
            SlowTimeoutResult::Fail => push_field(line, "timeout:fail"),
        },
    }
}

fn push_slow(line: &mut String, slow: bool) -> Result<(), AllocError>
    ensures { OnOk result
        (Appends (SpellsSlow slow) (string_bytes line.old) (string_bytes line.new)) }
{
    push_field(line, if slow { "slow" } else { "-" })
}

// Adds a tab and the bytes in hex.
fn push_hex(alloc: Global, line: &mut String, bytes: &[u8]) -> Result<(), AllocError>
    ensures { OnOk result
        (Appends (SpellsHex bytes.now) (string_bytes line.old) (string_bytes line.new)) }
{
    let digits = hex::encode(alloc, bytes)?;
    push_field(line, digits.as_str())
}

fn push_stream(
    alloc: Global,
    line: &mut String,
    told: &Option<Listing<u8>>,
) -> Result<(), AllocError>
    ensures { OnOk result
        (Appends (SpellsStream told.now) (string_bytes line.old) (string_bytes line.new)) }
{
    match told {
        None => push_field(line, "-"),
        Some(bytes) => push_hex(alloc, line, bytes.as_slice()),
    }
}

fn push_output(alloc: Global, line: &mut String, told: &RecordOutput) -> Result<(), AllocError>
    ensures { OnOk result
        (Appends (SpellsBothStreams told.now) (string_bytes line.old) (string_bytes line.new)) }
{
    match told {
        RecordOutput::Streams { out, err } => {
            push_stream(alloc, line, out)?;
            push_stream(alloc, line, err)
        }
        RecordOutput::Message(message) => {
            push_hex(alloc, line, message.as_str().as_bytes())?;
            push_field(line, "-")
        }
    }
}

/// Adds the fields of the record, a tab before each.
pub fn push_record(alloc: Global, line: &mut String, told: &Record) -> Result<(), AllocError>
    requires { IsSpellable (SpellsRecordText told.now) }
    ensures { OnOk result
        (Appends (SpellsRecordText told.now) (string_bytes line.old) (string_bytes line.new)) }
{
    push_result(line, &told.result)?;
    push_slow(line, told.slow)?;
    push_field(line, Buffer::new().format(told.nanos))?;
    push_output(alloc, line, &told.output)
}

// Reading an event from its line, field by field, with no memory.
ghost use Rattle.std.specs.Prelude.{◌≡◌, [], ◌∷◌, List, ℕ, codes, MatchOption, true, false};
ghost use Rattle.nextest_run_events_results.specs.declared.result.ExecutionResultDescription.TheVariants as ended;
ghost use Rattle.nextest_run_events_results.specs.Described.{result_description_of, described_failure};
ghost use Rattle.test_runner_core_line_syntax.specs.Spelling.{SpellsFailure, SpellsResult, SpellsSlow, SpellsNanos, SpellsStream, SpellsOutput, Pairs, is_exec_fail, has_message, SpellsRecord, SpellsReason, SpellsFields, Spells, reason_word};
ghost use Rattle.test_runner_core_line_syntax.specs.Fields.{fields_of, Reads};
ghost use Rattle.test_runner_core_line_syntax.specs.Reading.{LendsLine};
ghost use Rattle.test_runner_core_line_syntax.specs.Lent.{failed_meant, stream_meant, output_meant, record_meant, line_meant};

use super::hex_digits::HexDigits;
use super::hex_text::HexText;
use super::lent::{LentLine, LentOutput, LentRecord, LentStream};
use super::signals::is_signal;
use super::spelling_error::SpellingError;
use memchr::memchr;
use nextest_config_elements_choices::{LeakTimeoutResult, SlowTimeoutResult};
use nextest_run_events_results::{AbortStatus, CancelReason, ExecutionResult, FailureStatus};
use nextest_text::{i32_of_decimal, u64_of_decimal};

// The first field, and what follows its tab.
fn next_field(rest: &str) -> Option<(&str, &str)>
    ensures { MatchOption result
        (fields_of rest.now ≡ rest.now ∷ [])
        (λ parts. fields_of rest.now ≡ parts.0.now ∷ fields_of parts.1.now) }
{
    let tab = memchr(b'\t', rest.as_bytes())?;
    Some((&rest[..tab], &rest[tab + 1..]))
}

// The field that is the last, if no tab follows it.
fn last_field(rest: &str) -> Option<&str>
    ensures { MatchOption result ((first second : List ℕ) × (more : List (List ℕ)) × (fields_of
        rest.now ≡ first ∷ second ∷ more)) (λ field. fields_of rest.now ≡ field.now ∷ []) }
{
    match next_field(rest) {
        None => Some(rest),
        Some(_) => None,
    }
}

// A failure, and nothing behind it.
fn failure_of(text: &str) -> Option<FailureStatus>
    ensures { Reads described_failure (λ told. SpellsFailure told text.now) result }
{
    if let Some(digits) = text.strip_prefix("fail:") {
        let code = i32_of_decimal(digits)?;
        return if code == 0 {
            None
        } else {
            Some(FailureStatus::ExitCode(code))
        };
    }
    let signal = i32_of_decimal(text.strip_prefix("abort:")?)?;
    if is_signal(signal) {
        Some(FailureStatus::Abort(AbortStatus::UnixSignal(signal)))
    } else {
        None
    }
}

// A failure, and whether it left handles open too.
fn failed_of(field: &str) -> Option<(FailureStatus, bool)>
    ensures { Reads failed_meant
        (λ told. SpellsResult (ended.Fail told.0 told.1) field.now) result }
{
    match field.strip_suffix(":leaked") {
        Some(text) => Some((failure_of(text)?, true)),
        None => Some((failure_of(field)?, false)),
    }
}

fn result_of(field: &str) -> Option<ExecutionResult>
    ensures { Reads result_description_of (λ told. SpellsResult told field.now) result }
{
    match field {
        "pass" => Some(ExecutionResult::Pass),
        "exec-fail" => Some(ExecutionResult::ExecFail),
        "leak:pass" => Some(ExecutionResult::Leak {
            result: LeakTimeoutResult::Pass,
        }),
        "leak:fail" => Some(ExecutionResult::Leak {
            result: LeakTimeoutResult::Fail,
        }),
        "timeout:pass" => Some(ExecutionResult::Timeout {
            result: SlowTimeoutResult::Pass,
        }),
        "timeout:fail" => Some(ExecutionResult::Timeout {
            result: SlowTimeoutResult::Fail,
        }),
        _ => {
            let (failure_status, leaked) = failed_of(field)?;
            Some(ExecutionResult::Fail {
                failure_status,
                leaked,
            })
        }
    }
}

fn slow_of(field: &str) -> Option<bool>
    ensures { Reads (λ slow. slow) (λ told. SpellsSlow told field.now) result }
{
    match field {
        "slow" => Some(true),
        "-" => Some(false),
        _ => None,
    }
}

fn nanos_of(field: &str) -> Option<u64>
    ensures { Reads (λ nanos. nanos) (λ told. SpellsNanos told field.now) result }
{
    u64_of_decimal(field)
}

fn stream_of(field: &str) -> Option<LentStream<'_>>
    ensures { Reads stream_meant (λ told. SpellsStream told field.now) result }
{
    if field == "-" {
        return Some(LentStream::NotCaptured);
    }
    Some(LentStream::Captured(HexDigits::parse(field)?))
}

// Whether the result is that of what could not be started.
fn is_exec_fail(told: ExecutionResult) -> bool
    ensures { result ≡ is_exec_fail (result_description_of told) }
{
    match told {
        ExecutionResult::ExecFail => true,
        ExecutionResult::Pass => false,
        ExecutionResult::Leak { .. } => false,
        ExecutionResult::Fail { .. } => false,
        ExecutionResult::Timeout { .. } => false,
    }
}

fn message_of<'a>(out: &'a str, err: &'a str) -> Option<LentOutput<'a>>
    ensures { Reads output_meant
        (λ told. SpellsOutput told out.now err.now × (true ≡ has_message told)) result }
{
    if err != "-" {
        return None;
    }
    Some(LentOutput::Message(HexText::parse(out)?))
}

fn streams_of<'a>(out: &'a str, err: &'a str) -> Option<LentOutput<'a>>
    ensures { Reads output_meant
        (λ told. SpellsOutput told out.now err.now × (false ≡ has_message told)) result }
{
    Some(LentOutput::Streams {
        out: stream_of(out)?,
        err: stream_of(err)?,
    })
}

// What OUT and ERR say beside this result.
fn output_of<'a>(told: ExecutionResult, out: &'a str, err: &'a str) -> Option<LentOutput<'a>>
    ensures { Reads output_meant (λ output. SpellsOutput output out.now err.now
        × Pairs (result_description_of told) output) result }
{
    if is_exec_fail(told) {
        message_of(out, err)
    } else {
        streams_of(out, err)
    }
}

// The record that ends a line.
fn record_of(rest: &str) -> Option<LentRecord<'_>>
    ensures { Reads record_meant (λ told. SpellsRecord told (fields_of rest.now)) result }
{
    let (result_field, after_result) = next_field(rest)?;
    let (slow_field, after_slow) = next_field(after_result)?;
    let (nanos_field, after_nanos) = next_field(after_slow)?;
    let (out_field, after_out) = next_field(after_nanos)?;
    let err_field = last_field(after_out)?;
    let told = result_of(result_field)?;
    Some(LentRecord {
        result: told,
        slow: slow_of(slow_field)?,
        nanos: nanos_of(nanos_field)?,
        output: output_of(told, out_field, err_field)?,
    })
}

fn script_of(rest: &str) -> Option<LentLine<'_>>
    ensures { Reads line_meant
        (λ told. SpellsFields told (codes "script" ∷ fields_of rest.now)) result }
{
    let (id, after_id) = next_field(rest)?;
    let record = record_of(after_id)?;
    Some(LentLine::Script { id, record })
}

fn start_of(rest: &str) -> Option<LentLine<'_>>
    ensures { Reads line_meant
        (λ told. SpellsFields told (codes "start" ∷ fields_of rest.now)) result }
{
    let (binary, after_binary) = next_field(rest)?;
    let name = last_field(after_binary)?;
    Some(LentLine::Start { binary, name })
}

fn end_of(rest: &str) -> Option<LentLine<'_>>
    ensures { Reads line_meant
        (λ told. SpellsFields told (codes "end" ∷ fields_of rest.now)) result }
{
    let (binary, after_binary) = next_field(rest)?;
    let (name, after_name) = next_field(after_binary)?;
    let record = record_of(after_name)?;
    Some(LentLine::End {
        binary,
        name,
        record,
    })
}

// The reason that has this word.
fn reason_named(word: &str) -> Option<CancelReason>
    ensures { Reads (λ reason. reason) (λ told. word.now ≡ reason_word told) result }
{
    match word {
        "setup-script-failure" => Some(CancelReason::SetupScriptFailure),
        "test-failure" => Some(CancelReason::TestFailure),
        "report-error" => Some(CancelReason::ReportError),
        "test-failure-immediate" => Some(CancelReason::TestFailureImmediate),
        "global-timeout" => Some(CancelReason::GlobalTimeout),
        "signal" => Some(CancelReason::Signal),
        "interrupt" => Some(CancelReason::Interrupt),
        "second-signal" => Some(CancelReason::SecondSignal),
        _ => None,
    }
}

// A reason that a log may spell.
fn reason_of(word: &str) -> Option<CancelReason>
    ensures { Reads (λ reason. reason) (λ told. SpellsReason told word.now) result }
{
    let reason = reason_named(word)?;
    if reason.is_inner() {
        None
    } else {
        Some(reason)
    }
}

fn stop_of(rest: &str) -> Option<LentLine<'_>>
    ensures { Reads line_meant
        (λ told. SpellsFields told (codes "stop" ∷ fields_of rest.now)) result }
{
    let word = last_field(rest)?;
    let reason = reason_of(word)?;
    Some(LentLine::Stop { reason })
}

// What the fields of a line say.
fn fields_say(line: &str) -> Option<LentLine<'_>>
    ensures { Reads line_meant (λ told. SpellsFields told (fields_of line.now)) result }
{
    let (word, rest) = next_field(line)?;
    match word {
        "script" => script_of(rest),
        "start" => start_of(rest),
        "end" => end_of(rest),
        "stop" => stop_of(rest),
        _ => None,
    }
}

// The event that a text spells; `None` where it spells none.
fn lent_line_of(line: &str) -> Option<LentLine<'_>>
    ensures { Reads line_meant (λ told. Spells told line.now) result }
{
    if memchr(b'\n', line.as_bytes()).is_some() {
        return None;
    }
    fields_say(line)
}

/// Reads a line, its line feed left aside.
pub fn lent_of(bytes: &[u8]) -> Result<Option<LentLine<'_>>, SpellingError>
    ensures { LendsLine bytes.now result }
{
    let Ok(text) = str::from_utf8(bytes) else {
        return Err(SpellingError::NotUtf8);
    };
    if text.is_empty() {
        return Ok(None);
    }
    let Some(lent) = lent_line_of(text) else {
        return Err(SpellingError::BadLine);
    };
    Ok(Some(lent))
}

// What a process left: errors, outputs, and the part of them that tells of an error.
ghost use Rattle.std.specs.Prelude.{IfSome};
ghost use Rattle.nextest_run_events.specs.Collected.{IsLoaded};

use crate::ends::{described_end, end_of};
use crate::page::{Page, Whole};
use crate::parts::{list_of, two};
use crate::{ok, show, some};
use nextest_run_events::{
    AbortDescription, Boxed, ByteSubslice, ChildError, ChildErrorDescription, ChildExecutionOutput,
    ChildExecutionOutputDescription, ChildFdError, ChildOutput, ChildOutputDescription,
    ChildSingleOutput, ChildSplitOutput, ChildStartError, ChildStartErrorDescription, ErrorChain,
    ErrorList, ExecutionResult, ExecutionResultDescription, FailureDescription, LiveSpec,
    SerializableError, TestOutputErrorSlice, UnitErrorDescription, UnitKind,
};
use nextest_text::{Listing, Text};
use std::alloc::Global;

// An error and its causes, the nearest first, divided by `; `.
fn chain_of(alloc: Global, words: &str) -> Option<ErrorChain> {
    let (message, rest) = two(words, "; ");
    let causes = some!(list_of::<Text>(alloc, rest, "; "));
    Some(ErrorChain {
        message: ok!(Text::from_str(alloc, message)),
        causes: Listing::from(causes),
    })
}

// Why a process wasn't started; what the error came from where its kind is another.
fn start_error_of(word: &str, chain: ErrorChain) -> Result<ChildStartError, ErrorChain> {
    match word {
        "temp-path" => Ok(ChildStartError::TempPath(chain)),
        "spawn" => Ok(ChildStartError::Spawn(chain)),
        _ => Err(chain),
    }
}

fn child_error_of(word: &str, chain: ErrorChain) -> ChildError {
    match word {
        "read-stdout" => ChildError::Fd(ChildFdError::ReadStdout(chain)),
        "read-stderr" => ChildError::Fd(ChildFdError::ReadStderr(chain)),
        "read-combined" => ChildError::Fd(ChildFdError::ReadCombined(chain)),
        "wait" => ChildError::Fd(ChildFdError::Wait(chain)),
        _ => ChildError::SetupScriptOutput(chain),
    }
}

// An error's kind and what it came from: what its description says, with its source behind it.
pub(crate) fn errors(page: &mut Page, input: &str) -> Option<()> {
    let (word, words) = two(input, " ");
    match start_error_of(word, some!(chain_of(page.alloc, words))) {
        Ok(error) => start_error_told(page, &error),
        Err(chain) => child_error_told(page, &child_error_of(word, chain)),
    }
}

fn start_error_told(page: &mut Page, error: &ChildStartError) -> Option<()> {
    let error = ok!(error.clone());
    let told = ok!(ok!(ChildStartErrorDescription::from_error(page.alloc, &error)).clone());
    show!(page; &told, ": ", told.source());
    Some(())
}

fn child_error_told(page: &mut Page, error: &ChildError) -> Option<()> {
    let error = ok!(error.clone());
    let told = ok!(ok!(ChildErrorDescription::from_error(page.alloc, &error)).clone());
    show!(page; &told, ": ", told.source());
    Some(())
}

// An error and its causes: how many there are, each with the nearest one behind it, and what is
// nearest to the error itself.
pub(crate) fn causes(page: &mut Page, input: &str) -> Option<()> {
    let chain = some!(chain_of(page.alloc, input));
    let kept = ok!(SerializableError::new(page.alloc, &ok!(chain.clone())));
    causes_told(page, &ok!(kept.clone()))
}

fn causes_told(page: &mut Page, kept: &SerializableError) -> Option<()> {
    show!(page; kept, " has ", kept.causes().len());
    for source in kept.sources() {
        let nearest = source.source().map(|it| it.message());
        show!(page; "; ", ok!(source.clone()), " ", Whole(nearest));
    }
    show!(page; "; ", Whole(kept.source().map(|it| it.message())));
    Some(())
}

// Some bytes of a stream.
fn stream(alloc: Global, bytes: &[u8]) -> Option<ChildSingleOutput> {
    let bytes = ok!(Vec::from_slice(alloc, bytes));
    Some(ChildSingleOutput::from(Listing::from(bytes)))
}

// What a process left that ended so, wrote `ab` and may have had errors.
fn left(
    alloc: Global,
    ended: Option<ExecutionResult>,
    errors: Option<ErrorList<ChildError>>,
) -> Option<ChildExecutionOutput> {
    Some(ChildExecutionOutput::Output {
        result: ended,
        output: ChildOutput::Split(ChildSplitOutput {
            stdout: Some(some!(stream(alloc, b"ab"))),
            stderr: None,
        }),
        errors,
    })
}

// An error's kind and what it came from: what a process left that had it, as it is described.
pub(crate) fn described(page: &mut Page, input: &str) -> Option<()> {
    let output = ok!(some!(left_by_error(page.alloc, input)).clone());
    let told = ok!(ChildExecutionOutputDescription::<LiveSpec>::from_output(page.alloc, output));
    show!(page; "errors ", told.has_errors(), ", ");
    page.debug_copy(&told);
    Some(())
}

fn left_by_error(alloc: Global, input: &str) -> Option<ChildExecutionOutput> {
    let (word, words) = two(input, " ");
    match start_error_of(word, some!(chain_of(alloc, words))) {
        Ok(error) => Some(ChildExecutionOutput::StartError(error)),
        Err(chain) => {
            let errors = some!(one_error(alloc, child_error_of(word, chain)));
            left(alloc, Some(ExecutionResult::ExecFail), Some(errors))
        }
    }
}

// A list of one error.
fn one_error(alloc: Global, error: ChildError) -> Option<ErrorList<ChildError>> {
    let mut items = Listing::new(alloc);
    ok!(items.push(error));
    let description = ok!(Text::from_str(alloc, "errors of the process"));
    Some(ErrorList { description, items })
}

// How a process ended, or `-`, and whether a list of errors is there: whether something went wrong.
pub(crate) fn has_errors(page: &mut Page, input: &str) -> Option<()> {
    let (words, errors) = match input.strip_suffix(" listed") {
        Some(words) => {
            let (description, items) = (Text::new(page.alloc), Listing::new(page.alloc));
            (words, Some(ErrorList { description, items }))
        }
        None => (input, None),
    };
    let output = some!(left(page.alloc, end_of(words), errors));
    let told = ok!(ChildExecutionOutputDescription::<LiveSpec>::from_output(page.alloc, output));
    page.show(told.has_errors());
    Some(())
}

// Where a stream was captured and what was written to it: the lengths of standard output and
// standard error.
pub(crate) fn stream_lengths(page: &mut Page, input: &str) -> Option<()> {
    let (captured, bytes) = two(input, " ");
    let output = some!(stream(page.alloc, bytes.as_bytes()));
    let told = ChildOutputDescription::from(match captured {
        "stdout" => ChildOutput::Split(ChildSplitOutput {
            stdout: Some(output),
            stderr: None,
        }),
        "stderr" => ChildOutput::Split(ChildSplitOutput {
            stdout: None,
            stderr: Some(output),
        }),
        _ => ChildOutput::Combined { output },
    });
    page.debug(told.stdout_stderr_len());
    Some(())
}

// What is left by a test that was ended with handles left open, whose standard output wasn't read
// and whose error is no UTF-8.
pub(crate) fn left_by_test(alloc: Global) -> Option<ChildExecutionOutputDescription<LiveSpec>>
    ensures { IfSome result (λ output. IsLoaded output) }
{
    let result = ExecutionResultDescription::Fail {
        failure: FailureDescription::Abort {
            abort: AbortDescription::WindowsJobObject,
        },
        leaked: true,
    };
    let errors = ok!(Boxed::new(alloc, some!(unread_output(alloc))));
    let stderr = some!(stream(alloc, b"a\nError: \xff\n"));
    Some(ChildExecutionOutputDescription::Output {
        result: Some(ok!(Boxed::new(alloc, result))),
        output: ChildOutputDescription::Split {
            stdout: None,
            stderr: Some(stderr),
        },
        errors: Some(errors),
    })
}

// That standard output wasn't read.
fn unread_output(alloc: Global) -> Option<ErrorList<ChildErrorDescription>> {
    let source = some!(closed(alloc));
    let mut items = Listing::new(alloc);
    ok!(items.push(ChildErrorDescription::ReadStdout { source }));
    Some(ErrorList {
        description: Text::new(alloc),
        items,
    })
}

// Why a stream wasn't read, or a process not started.
fn closed(alloc: Global) -> Option<SerializableError> {
    SerializableError::new(alloc, &some!(chain_of(alloc, "closed"))).ok()
}

// All that went wrong: with such a test, with a script that wasn't started, and with a test that
// ended so and wrote that.
pub(crate) fn unit_errors(page: &mut Page, input: &str) -> Option<()> {
    if input == "test" {
        return all_told(page, UnitKind::Test, &some!(left_by_test(page.alloc)));
    }
    if input != "script" {
        return slice_told(page, &some!(left_by_end(page.alloc, input)));
    }
    let error = ChildStartErrorDescription::Spawn {
        source: some!(closed(page.alloc)),
    };
    let output = ChildExecutionOutputDescription::StartError(error);
    all_told(page, UnitKind::Script, &output)
}

// What is left by a test of which all output was captured as one, or both streams: how it ended, and
// what it wrote, of two streams to standard error.
fn left_by_end(alloc: Global, input: &str) -> Option<ChildExecutionOutputDescription<LiveSpec>>
    ensures { IfSome result (λ output. IsLoaded output) }
{
    let (streams, words) = two(input, " ");
    let (end, text) = two(words, ": ");
    let result = some!(described_end(alloc, end));
    let output = some!(stream(alloc, text.as_bytes()));
    Some(ChildExecutionOutputDescription::Output {
        result: Some(ok!(Boxed::new(alloc, result))),
        output: match streams {
            "one" => ChildOutputDescription::Combined { output },
            _ => ChildOutputDescription::Split {
                stdout: None,
                stderr: Some(output),
            },
        },
        errors: None,
    })
}

// The part of its output that tells of an error, and how many errors there are.
fn slice_told(page: &mut Page, output: &ChildExecutionOutputDescription<LiveSpec>) -> Option<()>
    requires { IsLoaded output.now }
{
    let described = UnitErrorDescription::new(UnitKind::Test, output);
    match described.output_slice() {
        None => page.show("no slice"),
        Some(found) => part_told(page, found),
    }
    match described.all_error_list() {
        None => page.show("; no errors"),
        Some(list) => show!(page; "; ", list.description, " (", list.items.len(), ")"),
    }
    Some(())
}

fn all_told(
    page: &mut Page,
    kind: UnitKind,
    output: &ChildExecutionOutputDescription<LiveSpec>,
) -> Option<()>
    requires { IsLoaded output.now }
{
    let list = some!(UnitErrorDescription::new(kind, output).all_error_list());
    let list = ok!(list.clone());
    show!(page; list.description, " (", list.items.len(), ")");
    for error in ok!(list.items.clone()) {
        show!(page; "; ", error);
    }
    Some(())
}

// The bytes of a stream that was captured, with `¤` for the byte FF, which is no UTF-8.
fn bytes_of(alloc: Global, text: &str) -> Option<Vec<u8>> {
    let mut bytes = Vec::new(alloc);
    for (number, piece) in text.split('¤').enumerate() {
        if number > 0 {
            ok!(bytes.push(0xFF));
        }
        ok!(bytes.extend_from_slice(piece.as_bytes()));
    }
    Some(bytes)
}

// Standard error and standard output, divided by a tab, `-` for one that wasn't captured: the kind
// of the part that is found, where it starts, and its length.
pub(crate) fn slices(page: &mut Page, input: &str) -> Option<()> {
    let (error_text, output_text) = two(input, "\t");
    let stderr = some!(bytes_of(page.alloc, error_text));
    let stdout = some!(bytes_of(page.alloc, output_text));
    let found = TestOutputErrorSlice::heuristic_extract(
        captured(output_text, stdout.as_slice()),
        captured(error_text, stderr.as_slice()),
    );
    match found {
        None => page.show("none"),
        Some(found) => part_told(page, found),
    }
    Some(())
}

fn captured<'a>(text: &str, bytes: &'a [u8]) -> Option<&'a [u8]> {
    if text == "-" {
        return None;
    }
    Some(bytes)
}

fn part_told(page: &mut Page, found: TestOutputErrorSlice<'_>) {
    let (kind, part) = match found {
        TestOutputErrorSlice::PanicMessage { stderr_subslice } => ("panic", stderr_subslice),
        TestOutputErrorSlice::ErrorStr { stderr_subslice } => ("error", stderr_subslice),
        TestOutputErrorSlice::ShouldPanic { stdout_subslice } => ("should-panic", stdout_subslice),
    };
    let ByteSubslice { slice, start } = part;
    show!(page; kind, " ", start, " ", slice.len());
}

// What went wrong with an attempt, collected.
ghost use Rattle.std.specs.Prelude.{◌≡◌, ◌≢◌, option_copied};
ghost use Rattle.std.specs.Option.{option_map};
ghost use Rattle.nextest_run_events_slices.specs.Slices.{IsSlice};
ghost use Rattle.nextest_run_events_errors.specs.Errors.{abort_value};
ghost use Rattle.nextest_run_events_errors.specs.Collected.{IsLoaded, start_error_of, errors_in, output_errors_of, abort_in, abort_of, stdout_of, stderr_of, is_failed_test, IsSliceOfEnd, IsSliceOf, collection_of, exec_fail_errors, child_process_errors, errors_of};
ghost use Rattle.nextest_run_events_errors.specs.Lists.{executing, IsListOf};

use crate::described::UnitAbortDescription;
use crate::list::{DescribedErrorList, DescribedErrors};
use nextest_run_events_outcomes::UnitKind;
use nextest_run_events_outputs::{
    Boxed, ChildErrorDescription, ChildExecutionOutputDescription, ChildOutputDescription,
    ChildSingleOutput, ChildStartErrorDescription, ErrorList, LiveSpec,
};
use nextest_run_events_results::{ExecutionResultDescription, FailureDescription};
use nextest_run_events_slices::TestOutputErrorSlice;

/// What went wrong with an attempt of a test or a setup script, collected from what its process
/// left, which it borrows.
#[derive(Clone, Copy, Debug)]
pub struct UnitErrorDescription<'a> {
    kind: UnitKind,
    start_error: Option<&'a ChildStartErrorDescription>,
    output_errors: &'a [ChildErrorDescription],
    abort: Option<UnitAbortDescription<'a>>,
    output_slice: Option<TestOutputErrorSlice<'a>>,
}

impl<'a> UnitErrorDescription<'a> {
    /// Collects what went wrong with a test or a script from what its process left. For a test
    /// whose result is known and no success it looks for the part of the output that tells of its
    /// error, in time in proportion to the output.
    pub fn new(kind: UnitKind, output: &'a ChildExecutionOutputDescription<LiveSpec>) -> Self
        requires { IsLoaded output.now }
        ensures kind { (collection_of result).kind ≡ kind }
        ensures start { (collection_of result).start ≡ start_error_of output.now }
        ensures output { (collection_of result).outputs ≡ output_errors_of output.now }
        ensures abort { (collection_of result).abort ≡ abort_of output.now }
        ensures slice { IsSliceOf kind output.now (collection_of result).slice }
    {
        match output {
            ChildExecutionOutputDescription::StartError(error) => UnitErrorDescription {
                kind,
                start_error: Some(error),
                output_errors: &[],
                abort: None,
                output_slice: None,
            },
            ChildExecutionOutputDescription::Output {
                result,
                output,
                errors,
            } => UnitErrorDescription {
                kind,
                start_error: None,
                output_errors: errors_in(errors),
                abort: abort_in(result),
                output_slice: slice_if_failed(kind, result, output),
            },
        }
    }

    /// All that went wrong: the start error or the output errors, then the abort, then the slice.
    pub fn all_errors(&self) -> DescribedErrors<'a>
        ensures { result ≡ errors_of (collection_of self.now) }
    {
        DescribedErrors {
            start: self.start_error,
            outputs: self.output_errors,
            abort: self.abort,
            slice: self.output_slice,
        }
    }

    /// The part of the output that tells of the error; `None` where none was looked for or found.
    pub fn output_slice(&self) -> Option<TestOutputErrorSlice<'a>>
        ensures { result ≡ (collection_of self.now).slice }
    {
        self.output_slice
    }

    /// All that went wrong, under one description; `None` where nothing did.
    pub fn all_error_list(&self) -> Option<DescribedErrorList<'a>>
        ensures { let all = collection_of self.now in IsListOf all.kind (errors_of all) result }
    {
        list_of(self.kind, self.all_errors())
    }

    /// The start error or the output errors, under one description; `None` where there are none.
    pub fn exec_fail_error_list(&self) -> Option<DescribedErrorList<'a>>
        ensures { let all = collection_of self.now in IsListOf all.kind
            (exec_fail_errors all) result }
    {
        let errors = DescribedErrors {
            start: self.start_error,
            outputs: self.output_errors,
            abort: None,
            slice: None,
        };
        list_of(self.kind, errors)
    }

    /// The abort and the slice, under one description; `None` where there is neither.
    pub fn child_process_error_list(&self) -> Option<DescribedErrorList<'a>>
        ensures { let all = collection_of self.now in IsListOf all.kind
            (child_process_errors all) result }
    {
        let errors = DescribedErrors {
            start: None,
            outputs: &[],
            abort: self.abort,
            slice: self.output_slice,
        };
        list_of(self.kind, errors)
    }
}

// The errors under one description, if there are any.
fn list_of(kind: UnitKind, items: DescribedErrors<'_>) -> Option<DescribedErrorList<'_>>
    ensures { IsListOf kind items.entry result }
{
    if items.is_empty() {
        return None;
    }
    Some(DescribedErrorList {
        description: executing_message(kind),
        items,
    })
}

// What is done with a test or a script.
fn executing_message(kind: UnitKind) -> &'static str
    ensures { result.now ≡ executing kind }
{
    match kind {
        UnitKind::Test => "executing test",
        UnitKind::Script => "executing script",
    }
}

// The errors of a list, if there is one.
fn errors_in(errors: &Option<Boxed<ErrorList<ChildErrorDescription>>>) -> &[ChildErrorDescription]
    ensures { result.now ≡ errors_in errors.now }
{
    match errors {
        Some(errors) => errors.get().items.as_slice(),
        None => &[],
    }
}

// The abort that a result tells, if it tells one.
fn abort_in(ended: &Option<Boxed<ExecutionResultDescription>>) -> Option<UnitAbortDescription<'_>>
    ensures { option_map abort_value result ≡ abort_in ended.now }
{
    match ended.as_ref()?.get() {
        ExecutionResultDescription::Fail {
            failure: FailureDescription::Abort { abort },
            leaked,
        } => Some(UnitAbortDescription {
            description: abort,
            leaked: *leaked,
        }),
        _ => None,
    }
}

// Whether a test failed, as far as its result is known.
fn is_failed_test(kind: UnitKind, ended: &Option<Boxed<ExecutionResultDescription>>) -> bool
    ensures { result ≡ is_failed_test kind ended.now }
{
    kind == UnitKind::Test
        && ended
            .as_ref()
            .is_some_and(|ended| !ended.get().is_success())
}

// The part of an output that tells of a test's error, where the test failed.
fn slice_if_failed<'a>(
    kind: UnitKind,
    ended: &Option<Boxed<ExecutionResultDescription>>,
    output: &'a ChildOutputDescription,
) -> Option<TestOutputErrorSlice<'a>>
    requires { output.now ≢ ChildOutputDescription.NotLoaded }
    ensures { IsSliceOfEnd kind ended.now output.now result }
{
    if !is_failed_test(kind, ended) {
        return None;
    }
    slice_in(output)
}

// The part of an output that tells of its error.
fn slice_in(output: &ChildOutputDescription) -> Option<TestOutputErrorSlice<'_>>
    requires { output.now ≢ ChildOutputDescription.NotLoaded }
    ensures { IsSlice (stdout_of output.now) (stderr_of output.now) result }
{
    match output {
        ChildOutputDescription::Split { stdout, stderr } => {
            TestOutputErrorSlice::heuristic_extract(bytes_in(stdout), bytes_in(stderr))
        }
        ChildOutputDescription::Combined { output } => {
            let bytes = Some(output.buf());
            TestOutputErrorSlice::heuristic_extract(bytes, bytes)
        }
        ChildOutputDescription::NotLoaded => unreachable!(),
    }
}

// The bytes of a stream, if it was captured.
fn bytes_in(stream: &Option<ChildSingleOutput>) -> Option<&[u8]>
    ensures { option_copied result ≡ stream.now }
{
    match stream {
        Some(output) => Some(output.buf()),
        None => None,
    }
}

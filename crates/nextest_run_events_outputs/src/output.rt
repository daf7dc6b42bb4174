// What a child process wrote.
ghost use Rattle.std.specs.Prelude.{◌≡◌, ◌≢◌};
ghost use Rattle.nextest_run_events_outputs.specs.Output.{stream_length, stream_lengths, has_errors};

use super::boxed::Boxed;
use super::child_error::{ChildErrorDescription, ChildStartErrorDescription};
use super::error_list::ErrorList;
use nextest_run_events_results::ExecutionResultDescription;
use nextest_text::Listing;
use std::marker::Model;

/// How the output of child processes is kept.
pub trait OutputSpec {
    /// What is kept of one process's output.
    type ChildOutputDesc: Drop;
}

/// Output is kept as the bytes that were read.
#[derive(Clone, Copy, Debug, PartialEq, Eq)]
pub struct LiveSpec;

impl OutputSpec for LiveSpec {
    type ChildOutputDesc = ChildOutputDescription;
}

/// The bytes of one stream. In a clause it is their list.
#[derive(Clone, Debug, PartialEq, Eq)]
pub struct ChildSingleOutput {
    buf: Listing<u8>,
}

// One call drops it, whoever holds it.
impl Drop for ChildSingleOutput {
    fn drop(self) {
        let Self { buf: _ } = self;
    }
}

impl Model for ChildSingleOutput {
    ghost use Rattle.std.specs.Prelude.{List, ℕ};

    ghost Value = { List ℕ };

    ghost view = { λ o. o.buf };

    ghost inverse = { λ bytes. record { buf = bytes } };
}

impl ChildSingleOutput {
    /// The bytes, lent.
    pub fn buf(&self) -> &[u8]
        ensures { result.now ≡ self.now }
    {
        self.buf.as_slice()
    }
}

impl From<Listing<u8>> for ChildSingleOutput {
    ghost from_gives = { λ bytes output. output ≡ bytes };

    fn from(buf: Listing<u8>) -> ChildSingleOutput {
        ChildSingleOutput { buf }
    }
}

/// What a child process wrote. A stream that wasn't captured is `None`, one that was and stayed
/// empty isn't.
#[derive(Clone, Debug)]
pub enum ChildOutputDescription {
    /// Two streams, each on its own.
    Split {
        /// Standard output.
        stdout: Option<ChildSingleOutput>,
        /// Standard error.
        stderr: Option<ChildSingleOutput>,
    },
    /// Both streams in one.
    Combined {
        /// What was written to it.
        output: ChildSingleOutput,
    },
    /// There is output, and it wasn't loaded.
    NotLoaded,
}

// One call drops it, whoever holds it.
impl Drop for ChildOutputDescription {
    fn drop(self) {
        match self {
            Self::Split {
                stdout: _,
                stderr: _,
            } => {}
            Self::Combined { output: _ } => {}
            Self::NotLoaded => {}
        }
    }
}

impl ChildOutputDescription {
    /// How many bytes standard output and standard error have, each `None` where it wasn't
    /// captured. Both streams in one count as standard output. The output must be loaded.
    pub fn stdout_stderr_len(&self) -> (Option<u64>, Option<u64>)
        requires { self.now ≢ ChildOutputDescription.NotLoaded }
        ensures { result ≡ stream_lengths self.now }
    {
        match self {
            ChildOutputDescription::Split { stdout, stderr } => (len_of(stdout), len_of(stderr)),
            ChildOutputDescription::Combined { output } => (Some(output.buf().len() as u64), None),
            ChildOutputDescription::NotLoaded => unreachable!(),
        }
    }
}

// How many bytes a stream has, if it was captured.
fn len_of(stream: &Option<ChildSingleOutput>) -> Option<u64>
    ensures { result ≡ stream_length stream.now }
{
    match stream {
        Some(output) => Some(output.buf().len() as u64),
        None => None,
    }
}

/// What came of running a child process.
#[derive_where(Clone, Debug, PartialEq, Eq; S::ChildOutputDesc)]
pub enum ChildExecutionOutputDescription<S: OutputSpec> {
    /// It was started.
    Output {
        /// How it ended, if it did.
        result: Option<Boxed<ExecutionResultDescription>>,
        /// What it wrote.
        output: S::ChildOutputDesc,
        /// What went wrong while it ran or was read, if anything did.
        errors: Option<Boxed<ErrorList<ChildErrorDescription>>>,
    },
    /// It could not be started.
    StartError(ChildStartErrorDescription),
}

// One call drops it, whoever holds it.
impl<S: OutputSpec> Drop for ChildExecutionOutputDescription<S> {
    fn drop(self) {
        match self {
            Self::Output {
                result: _,
                output: _,
                errors: _,
            } => {}
            Self::StartError(_) => {}
        }
    }
}

impl<S: OutputSpec> ChildExecutionOutputDescription<S> {
    /// Whether something went wrong: it could not be started, errors are listed, or it ended
    /// without success.
    pub fn has_errors(&self) -> bool
        ensures { result ≡ has_errors self.now }
    {
        match self {
            ChildExecutionOutputDescription::Output { result, errors, .. } => {
                errors.is_some()
                    || result
                        .as_ref()
                        .is_some_and(|ended| !ended.get().is_success())
            }
            ChildExecutionOutputDescription::StartError(_) => true,
        }
    }
}

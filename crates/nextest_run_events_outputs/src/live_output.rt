// What a child process that runs gives, as a runner has it.
ghost use Rattle.std.specs.Prelude.{◌≡◌, IfOk, option_map};
ghost use Rattle.nextest_run_events_results.specs.Described.{result_description_of};
ghost use Rattle.nextest_run_events_outputs.specs.Live.{described_errors, described_output, described_run};

use super::boxed::Boxed;
use super::child_error::{ChildErrorDescription, ChildStartErrorDescription};
use super::error_list::ErrorList;
use super::live_error::{ChildError, ChildStartError};
use super::output::{
    ChildExecutionOutputDescription, ChildOutputDescription, ChildSingleOutput, LiveSpec,
};
use nextest_run_events_results::{ExecutionResult, ExecutionResultDescription};
use nextest_text::Listing;
use std::alloc::{AllocError, Global};

/// What a child process wrote to two streams, each on its own. A stream that wasn't captured is
/// `None`.
#[derive(Clone, Debug, Drop, PartialEq, Eq)]
pub struct ChildSplitOutput {
    /// Standard output.
    pub stdout: Option<ChildSingleOutput>,
    /// Standard error.
    pub stderr: Option<ChildSingleOutput>,
}

/// What a child process wrote.
#[derive(Clone, Debug, Drop, PartialEq, Eq)]
pub enum ChildOutput {
    /// Two streams, each on its own.
    Split(ChildSplitOutput),
    /// Both streams in one.
    Combined {
        /// What was written to it.
        output: ChildSingleOutput,
    },
}

/// What came of running a child process.
#[derive(Clone, Debug, Drop, PartialEq, Eq)]
pub enum ChildExecutionOutput {
    /// It was started.
    Output {
        /// How it ended, if it did.
        result: Option<ExecutionResult>,
        /// What it wrote.
        output: ChildOutput,
        /// What went wrong while it ran or was read, if anything did.
        errors: Option<ErrorList<ChildError>>,
    },
    /// It could not be started.
    StartError(ChildStartError),
}

impl From<ChildOutput> for ChildOutputDescription {
    ghost use Rattle.std.specs.Prelude.{◌≡◌};
    ghost use Rattle.nextest_run_events_outputs.specs.Live.{described_output};

    ghost from_gives = { λ output told. told ≡ described_output output };

    fn from(output: ChildOutput) -> ChildOutputDescription {
        match output {
            ChildOutput::Split(ChildSplitOutput { stdout, stderr }) => {
                Self::Split { stdout, stderr }
            }
            ChildOutput::Combined { output } => Self::Combined { output },
        }
    }
}

// How an end is described, if there was one.
fn told_end(
    alloc: Global,
    ended: Option<ExecutionResult>,
) -> Result<Option<Boxed<ExecutionResultDescription>>, AllocError>
    ensures { IfOk result (λ told. told ≡ option_map result_description_of ended) }
{
    match ended {
        Some(ended) => Ok(Some(Boxed::new(
            alloc,
            ExecutionResultDescription::from_result(alloc, ended)?,
        )?)),
        None => Ok(None),
    }
}

// Each error, described in its place.
fn told_errors(
    alloc: Global,
    errors: &ErrorList<ChildError>,
) -> Result<ErrorList<ChildErrorDescription>, AllocError>
    ensures { IfOk result (λ told. told ≡ described_errors errors.now) }
{
    let mut told = Listing::new(alloc);
    for error in errors.items.as_slice() {
        told.push(ChildErrorDescription::from_error(alloc, error)?)?;
    }
    Ok(ErrorList {
        description: errors.description.clone()?,
        items: told,
    })
}

// The errors described, if there are any.
fn told_errors_if_any(
    alloc: Global,
    errors: &Option<ErrorList<ChildError>>,
) -> Result<Option<Boxed<ErrorList<ChildErrorDescription>>>, AllocError>
    ensures { IfOk result (λ told. told ≡ option_map described_errors errors.now) }
{
    match errors {
        Some(errors) => Ok(Some(Boxed::new(alloc, told_errors(alloc, errors)?)?)),
        None => Ok(None),
    }
}

impl ChildExecutionOutputDescription<LiveSpec> {
    /// The same, told by texts: what was written is moved, and the texts of errors are copied. It
    /// fails only on allocation, and then what was passed is lost.
    pub fn from_output(alloc: Global, output: ChildExecutionOutput) -> Result<Self, AllocError>
        ensures { IfOk result (λ told. told ≡ described_run output) }
    {
        match output {
            ChildExecutionOutput::Output {
                result,
                output,
                errors,
            } => Ok(ChildExecutionOutputDescription::Output {
                result: told_end(alloc, result)?,
                output: ChildOutputDescription::from(output),
                errors: told_errors_if_any(alloc, &errors)?,
            }),
            ChildExecutionOutput::StartError(error) => {
                Ok(ChildExecutionOutputDescription::StartError(
                    ChildStartErrorDescription::from_error(alloc, &error)?,
                ))
            }
        }
    }
}

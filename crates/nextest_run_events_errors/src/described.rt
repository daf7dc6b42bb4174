// One thing that went wrong.

use nextest_run_events_outputs::{ChildErrorDescription, ChildStartErrorDescription};
use nextest_run_events_results::AbortDescription;
use nextest_run_events_slices::TestOutputErrorSlice;
use std::fmt;

/// That a process was ended.
#[derive(Clone, Copy, Debug)]
pub struct UnitAbortDescription<'a> {
    /// How.
    pub description: &'a AbortDescription,
    /// Whether it left handles open too.
    pub leaked: bool,
}

/// One thing that went wrong with an attempt.
#[derive(Clone, Copy, Debug)]
pub enum DescribedError<'a> {
    /// Its process could not be started.
    Start(&'a ChildStartErrorDescription),
    /// Something went wrong while its process ran, or with what that left.
    Output(&'a ChildErrorDescription),
    /// Its process was ended.
    Abort(UnitAbortDescription<'a>),
    /// The part of its output that tells of its error.
    Slice(TestOutputErrorSlice<'a>),
}

impl fmt::Display for UnitAbortDescription<'_> {
    ghost use Rattle.std.specs.Prelude.{Some};
    ghost use Rattle.nextest_run_events_errors.specs.Texts.{text_of_unit_abort};

    ghost output = { λ abort. Some (text_of_unit_abort abort) };

    fn fmt<W: fmt::Write>(&self, f: &mut fmt::Formatter<W>) -> fmt::Result {
        write!(f, "process {}", self.description)?;
        if self.leaked {
            write!(f, " (leaked handles)")
        } else {
            Ok(())
        }
    }
}

impl fmt::Display for DescribedError<'_> {
    ghost use Rattle.nextest_run_events_errors.specs.Texts.{text_of_error};

    ghost output = { text_of_error };

    fn fmt<W: fmt::Write>(&self, f: &mut fmt::Formatter<W>) -> fmt::Result {
        match self {
            DescribedError::Start(error) => write!(f, "{error}"),
            DescribedError::Output(error) => write!(f, "{error}"),
            DescribedError::Abort(abort) => write!(f, "{abort}"),
            DescribedError::Slice(slice) => write!(f, "{slice}"),
        }
    }
}

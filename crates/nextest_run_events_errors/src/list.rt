// What went wrong, in order.
ghost use Rattle.std.specs.Prelude.{◌≡◌, ◌↔◌, [], length, IsTrue};
ghost use Rattle.std.specs.Iterator.{YieldsFirstBy, item_count};
ghost use Rattle.nextest_run_events_errors.specs.Errors.{description_of};

use crate::described::{DescribedError, UnitAbortDescription};
use nextest_run_events_outputs::{ChildErrorDescription, ChildStartErrorDescription};
use nextest_run_events_slices::TestOutputErrorSlice;
use std::alloc::AllocError;
use std::marker::Model;

/// What went wrong, in the order in which it is told. In a clause it is the list of those that are
/// left.
#[derive(Debug, Drop)]
pub struct DescribedErrors<'a> {
    pub(crate) start: Option<&'a ChildStartErrorDescription>,
    pub(crate) outputs: &'a [ChildErrorDescription],
    pub(crate) abort: Option<UnitAbortDescription<'a>>,
    pub(crate) slice: Option<TestOutputErrorSlice<'a>>,
}

impl<'a> Model for DescribedErrors<'a> {
    ghost use Rattle.std.specs.Prelude.{List, ◌++◌, option_copied};
    ghost use Rattle.std.specs.Option.{option_map};
    ghost use Rattle.nextest_run_events_errors.specs.Errors.{Described, abort_value, exec_fail, child_process};

    ghost Value = { List Described };

    ghost view = { λ left. exec_fail (option_copied left.start) left.outputs.now ++ child_process (option_map abort_value left.abort) left.slice };
}

/// What went wrong, and what was being done.
#[derive(Clone, Debug, Drop)]
pub struct DescribedErrorList<'a> {
    /// What was being done: `executing test` or `executing script`.
    pub description: &'static str,
    /// What went wrong, in the order in which it is told.
    pub items: DescribedErrors<'a>,
}

impl DescribedErrors<'_> {
    /// Whether nothing is left.
    pub fn is_empty(&self) -> bool
        ensures { IsTrue result ↔ (self.now ≡ []) }
    {
        self.start.is_none()
            && self.outputs.is_empty()
            && self.abort.is_none()
            && self.slice.is_none()
    }

    /// How many are left.
    pub fn len(&self) -> usize
        ensures { result ≡ length self.now }
    {
        usize::from(self.start.is_some())
            + self.outputs.len()
            + usize::from(self.abort.is_some())
            + usize::from(self.slice.is_some())
    }
}

impl Clone for DescribedErrors<'_> {
    ghost is_clone = { λ original copy. copy ≡ original };

    fn clone(&self) -> Result<Self, AllocError> {
        Ok(DescribedErrors {
            start: self.start,
            outputs: self.outputs,
            abort: self.abort,
            slice: self.slice,
        })
    }
}

impl<'a> Iterator for DescribedErrors<'a> {
    type Item = DescribedError<'a>;

    ghost next_gives = { YieldsFirstBy description_of (λ left. left) };

    ghost remaining = { item_count (λ left. left) };

    fn next(&mut self) -> Option<DescribedError<'a>> {
        if let Some(error) = self.start.take() {
            return Some(DescribedError::Start(error));
        }
        if let Some((error, outputs)) = self.outputs.split_first() {
            self.outputs = outputs;
            return Some(DescribedError::Output(error));
        }
        if let Some(abort) = self.abort.take() {
            return Some(DescribedError::Abort(abort));
        }
        Some(DescribedError::Slice(self.slice.take()?))
    }
}

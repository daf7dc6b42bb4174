//! The part of a test's output that tells of its error.
ghost use Rattle.std.specs.Prelude.{◌≡◌, ◌≤◌, length, MatchOption, IfSome, option_copied};
ghost use Rattle.nextest_run_events_slices.specs.Notes.{HasNoNote};
ghost use Rattle.nextest_run_events_slices.specs.Slices.{bytes_of_output, HasNoPanic, HasNoError, IsPartFrom, IsPanicSlice, IsErrorSlice, IsNoteSlice, IsSlice, IsWithin, stderr_part, stdout_part, part_of};

use crate::errors::first_error;
use crate::notes::first_note;
use crate::panics::{last_panic, panic_slice_start};
use bstr::ByteSlice;
use std::fmt;

/// A part of an output.
#[derive(Clone, Copy, Debug)]
pub struct ByteSubslice<'a> {
    /// The bytes of the part.
    pub slice: &'a [u8],
    /// Where the part begins in the output, in bytes.
    pub start: usize,
}

/// The part of a test's output that tells of its error.
#[derive(Clone, Copy, Debug)]
pub enum TestOutputErrorSlice<'a> {
    /// A panic message, to the end of standard error.
    PanicMessage {
        /// The part of standard error.
        stderr_subslice: ByteSubslice<'a>,
    },
    /// An error that was printed, to the end of standard error.
    ErrorStr {
        /// The part of standard error.
        stderr_subslice: ByteSubslice<'a>,
    },
    /// The line which says that the test should have panicked.
    ShouldPanic {
        /// The part of standard output.
        stdout_subslice: ByteSubslice<'a>,
    },
}

/// The bytes of an output: one that was not captured has none.
fn bytes_of(output: Option<&[u8]>) -> &[u8]
    ensures { result.now ≡ bytes_of_output (option_copied output.entry) }
{
    output.unwrap_or(&[])
}

/// The part of `output` from `start` to its end, without white space at its end.
fn part_from(output: &[u8], start: usize) -> ByteSubslice<'_>
    requires { start ≤ length output.now }
    ensures { IsPartFrom output.now start result }
{
    let part = &output[start..];
    ByteSubslice {
        slice: part.trim_end(),
        start,
    }
}

/// The part that tells of a panic.
fn panic_part(stderr: &[u8]) -> Option<ByteSubslice<'_>>
    ensures { MatchOption result (HasNoPanic stderr.now) (λ part. IsPanicSlice stderr.now part) }
{
    let at = last_panic(stderr)?;
    Some(part_from(stderr, panic_slice_start(stderr, at)))
}

/// The part that tells of an error.
fn error_part(stderr: &[u8]) -> Option<ByteSubslice<'_>>
    ensures { MatchOption result (HasNoError stderr.now) (λ part. IsErrorSlice stderr.now part) }
{
    let at = first_error(stderr)?;
    Some(part_from(stderr, at))
}

/// The part that tells of a test that should have panicked.
fn note_part(stdout: &[u8]) -> Option<ByteSubslice<'_>>
    ensures { MatchOption result (HasNoNote stdout.now) (λ part. IsNoteSlice stdout.now part) }
{
    let (start, slice) = first_note(stdout)?;
    Some(ByteSubslice { slice, start })
}

impl<'a> TestOutputErrorSlice<'a> {
    /// The part of the outputs that tells of their error; `None` where there is none. An output
    /// that was not captured is `None`. Takes no memory, and time in proportion to the outputs.
    pub fn heuristic_extract(stdout: Option<&'a [u8]>, stderr: Option<&'a [u8]>) -> Option<Self>
        ensures slice { IsSlice (bytes_of_output (option_copied stdout.entry))
            (bytes_of_output (option_copied stderr.entry)) result }
        ensures within { IfSome result (λ found. IsWithin (bytes_of_output
            (option_copied stdout.entry)) (bytes_of_output (option_copied stderr.entry)) found) }
    {
        let stderr = bytes_of(stderr);
        if let Some(stderr_subslice) = panic_part(stderr) {
            return Some(TestOutputErrorSlice::PanicMessage { stderr_subslice });
        }
        if let Some(stderr_subslice) = error_part(stderr) {
            return Some(TestOutputErrorSlice::ErrorStr { stderr_subslice });
        }
        let stdout_subslice = note_part(bytes_of(stdout))?;
        Some(TestOutputErrorSlice::ShouldPanic { stdout_subslice })
    }

    /// The part of standard error, if it tells of the error.
    pub fn stderr_subslice(&self) -> Option<ByteSubslice<'a>>
        ensures { result ≡ stderr_part self.now }
    {
        match self {
            TestOutputErrorSlice::PanicMessage { stderr_subslice }
            | TestOutputErrorSlice::ErrorStr { stderr_subslice } => Some(*stderr_subslice),
            TestOutputErrorSlice::ShouldPanic { .. } => None,
        }
    }

    /// The part of standard output, if it tells of the error.
    pub fn stdout_subslice(&self) -> Option<ByteSubslice<'a>>
        ensures { result ≡ stdout_part self.now }
    {
        match self {
            TestOutputErrorSlice::ShouldPanic { stdout_subslice } => Some(*stdout_subslice),
            _ => None,
        }
    }

    /// The part, whichever output it is of: where both were captured as one, it is of that.
    pub fn combined_subslice(&self) -> Option<ByteSubslice<'a>>
        ensures { result ≡ Some (part_of self.now) }
    {
        Some(self.part())
    }

    /// The part.
    fn part(&self) -> ByteSubslice<'a>
        ensures { result ≡ part_of self.now }
    {
        match self {
            TestOutputErrorSlice::PanicMessage {
                stderr_subslice: part,
            }
            | TestOutputErrorSlice::ErrorStr {
                stderr_subslice: part,
            }
            | TestOutputErrorSlice::ShouldPanic {
                stdout_subslice: part,
            } => *part,
        }
    }
}

/// Writes the part as text, with U+FFFD in place of what is no UTF-8.
impl fmt::Display for TestOutputErrorSlice<'_> {
    ghost use Rattle.std.specs.Prelude.{Some};
    ghost use Rattle.std.specs.Str.{encode_utf8_all};
    ghost use Rattle.bstr.specs.Utf8.{lossy_chars};
    ghost use Rattle.nextest_run_events_slices.specs.Slices.{part_of};

    ghost output = { λ it. Some (encode_utf8_all (lossy_chars (part_of it).slice.now)) };

    fn fmt<W: fmt::Write>(&self, f: &mut fmt::Formatter<W>) -> fmt::Result {
        fmt::Display::fmt(&self.part().slice.as_bstr(), f)
    }
}

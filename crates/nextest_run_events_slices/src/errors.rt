//! The first error of an output.
ghost use Rattle.nextest_run_events_slices.specs.Places.{IsFirstError};

use bstr::ByteSlice;

/// Where the first line that begins with `Error: ` begins.
pub fn first_error(output: &[u8]) -> Option<usize>
    ensures { IsFirstError output.now result }
{
    if output.starts_with_str(b"Error: ") {
        return Some(0);
    }
    let feed = output.find(b"\nError: ")?;
    Some(feed + 1)
}

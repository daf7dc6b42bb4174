//! The panic messages of an output, and where the last one begins.
ghost use Rattle.std.specs.Prelude.{◌≡◌, ◌≢◌, ◌+◌, ◌<◌, ◌≤◌, ℕ, length, MatchOption};
ghost use Rattle.nextest_run_events_slices.specs.Places.{Span, IsLineStart, IsPanic, IsLastPanic, IsErrorLineAbove, IsPanicStart};

use crate::heads::behind_panic_head;
use bstr::ByteSlice;

/// Where the panic head ends that stands at the start of a line, if one stands there.
fn panic_stop(output: &[u8], at: usize) -> Option<usize>
    requires within { at ≤ length output.now }
    requires line { IsLineStart output.now at }
    ensures { MatchOption result ((span : Span) → IsPanic output.now span → span.start ≢ at)
        (λ stop. (stop ≤ length output.now)
        × IsPanic output.now (record { start = at; stop = stop })) }
{
    let rest = behind_panic_head(&output[at..])?;
    Some(output.len() - rest.len())
}

/// The first place from `from` on at which a line starts behind a line feed.
fn next_line_start(output: &[u8], from: usize) -> Option<usize>
    requires some { 0 < from }
    requires within { from ≤ length output.now + 1 }
    ensures { MatchOption result ((place : ℕ) → from ≤ place → ¬ (IsLineStart output.now place))
        (λ start. (from ≤ start) × (start ≤ length output.now) × IsLineStart output.now start
        × ((place : ℕ) → from ≤ place → place < start → ¬ (IsLineStart output.now place))) }
{
    let ahead = &output[from - 1..];
    let feed = ahead.find_byte(b'\n')?;
    Some(from + feed)
}

/// Where the last panic message begins of those that are taken from the left without overlap.
pub fn last_panic(output: &[u8]) -> Option<usize>
    ensures { IsLastPanic output.now result }
{
    let mut last = None;
    let mut at = 0;
    loop {
        let from = match panic_stop(output, at) {
            Some(stop) => {
                last = Some(at);
                stop
            }
            None => at + 1,
        };
        match next_line_start(output, from) {
            Some(start) => at = start,
            None => return last,
        }
    }
}

/// Where the line above `at` begins, if it begins with `Error:`. Line ends between it and `at` are
/// passed over.
fn error_line_above(output: &[u8], at: usize) -> Option<usize>
    requires { at ≤ length output.now }
    ensures { MatchOption result ((start : ℕ) → ¬ (IsErrorLineAbove output.now at start))
        (λ start. IsErrorLineAbove output.now at start) }
{
    let before = &output[..at];
    let last = before.rfind_not_byteset(b"\r\n")?;
    let above = &before[..last + 1];
    let feed = above.rfind_byte(b'\n')?;
    let line = &above[feed + 1..];
    if line.starts_with_str(b"Error:") {
        return Some(feed + 1);
    }
    None
}

/// Where the slice of the panic message at `at` begins: at the line above it if that begins with
/// `Error:`, or else at `at`.
pub fn panic_slice_start(output: &[u8], at: usize) -> usize
    requires { at ≤ length output.now }
    ensures { IsPanicStart output.now at result }
{
    error_line_above(output, at).unwrap_or(at)
}

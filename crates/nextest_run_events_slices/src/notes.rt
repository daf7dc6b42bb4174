//! The line of an output which says that its test should have panicked.
ghost use Rattle.std.specs.Prelude.{◌≡◌, MatchOption, codes};
ghost use Rattle.bstr.specs.Text.{no_cr, without_terminator};
ghost use Rattle.nextest_run_events_slices.specs.Notes.{HasNoNote, IsNote};

use bstr::{ByteSlice, Finder};

/// What the line says.
const NOTE: &[u8] = b"note: test did not panic as expected";

/// A line without a carriage return at its end.
fn without_return(line: &[u8]) -> &[u8]
    ensures { result.now ≡ no_cr line.now }
{
    if line.ends_with_str(b"\r") {
        return &line[..line.len() - 1];
    }
    line
}

/// A line without its line feed and a carriage return before it.
fn line_text(line: &[u8]) -> &[u8]
    ensures { result.now ≡ without_terminator line.now }
{
    if line.ends_with_str(b"\n") {
        return without_return(&line[..line.len() - 1]);
    }
    line
}

/// The first line in which `note` finds the note: where it begins, and the line without its end.
fn first_found<'o>(note: &Finder<'_>, output: &'o [u8]) -> Option<(usize, &'o [u8])>
    requires { note.now ≡ codes "note: test did not panic as expected" }
    ensures { MatchOption result (HasNoNote output.now)
        (λ found. IsNote output.now found.0 found.1.now) }
{
    let mut start = 0;
    for line in output.lines_with_terminator() {
        let text = line_text(line);
        if note.find(text).is_some() {
            return Some((start, text));
        }
        start += line.len();
    }
    None
}

/// The first line that has the note: where it begins, and the line without its end.
pub fn first_note(output: &[u8]) -> Option<(usize, &[u8])>
    ensures { MatchOption result (HasNoNote output.now)
        (λ found. IsNote output.now found.0 found.1.now) }
{
    let note = Finder::new(NOTE);
    first_found(&note, output)
}

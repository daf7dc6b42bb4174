// The bytes that wait, in a buffer that is longer than they are.
ghost use Rattle.std.specs.Prelude.{◌≡◌, ◌+◌, ◌-◌, ◌*◌, ◌^◌, ◌<◌, ◌≤◌, IfOk, OnErr, length, take, vec_len};
ghost use Rattle.std.specs.List.{slice_range};
ghost use Rattle.std.specs.Io.KnownBytes.{ReadConsumes};
ghost use Rattle.test_runner_core_streams.specs.Streams.{read_fails, failures_after};

use std::alloc::AllocError;
use std::io;
use test_runner_core_streams::{LogReader, READ_LIMIT};

// By how much a long buffer is made longer at once: what is added is written before it is read into,
// and takes memory from then on.
const STEP: usize = 1_048_576;

// How long the lines of a log make the buffer at most: what waits is at most a line, and the buffer
// is made longer, by as much as it has at most, only where that fills half of it. Only the line
// before a log makes it longer.
pub(super) const LONGEST: usize = 4_194_304;

// Makes room behind the bytes from `start` to `end`, if there is none, and answers where they begin
// now. An `Err` leaves the buffer as it was.
pub(super) fn with_room(buffer: &mut Vec<u8>, start: usize, end: usize) -> Result<usize, AllocError>
    requires order { start ≤ end }
    requires filled { end ≤ vec_len buffer.old }
    ensures bytes { IfOk result (λ begin. slice_range buffer.new.items begin (begin + (end - start))
        ≡ slice_range buffer.old.items start end) }
    ensures room { IfOk result (λ begin. begin + (end - start) < vec_len buffer.new) }
    ensures err { OnErr result (buffer.new.items ≡ buffer.old.items) }
{
    if end < buffer.len() {
        return Ok(start);
    }
    make_room(buffer, start)
}

// Moves the bytes from `start` to `end` to the beginning of the buffer and gives back the memory
// that they don't need, if memory can be given back.
pub(super) fn shorten(buffer: &mut Vec<u8>, start: usize, end: usize)
    requires order { start ≤ end }
    requires filled { end ≤ vec_len buffer.old }
    requires apart { end - start ≤ start }
    ensures bytes { slice_range buffer.new.items 0 (end - start)
        ≡ slice_range buffer.old.items start end }
    ensures filled { end - start ≤ vec_len buffer.new }
{
    let waiting = end - start;
    let (front, back) = buffer.split_at_mut(start);
    front[..waiting].copy_from_slice(&back[..waiting]);
    buffer.truncate(waiting);
    buffer.shrink_to_fit();
}

// Makes room behind the bytes from `start` to the end of a full buffer: at the front where they fit
// before themselves, so that no byte is moved more often than others are read; else the buffer is
// made longer: at first as long as a read is at most, then twice as long where it is short.
fn make_room(buffer: &mut Vec<u8>, start: usize) -> Result<usize, AllocError>
    requires { start ≤ vec_len buffer.old }
    ensures bytes { IfOk result (λ begin. slice_range buffer.new.items begin (begin
        + (vec_len buffer.old - start)) ≡ slice_range buffer.old.items start (vec_len buffer.old)) }
    ensures room { IfOk result
        (λ begin. begin + (vec_len buffer.old - start) < vec_len buffer.new) }
    ensures err { OnErr result (buffer.new.items ≡ buffer.old.items) }
{
    let length = buffer.len();
    let waiting = length - start;
    if waiting < start {
        let (front, back) = buffer.split_at_mut(start);
        front[..waiting].copy_from_slice(back);
        return Ok(0);
    }
    let longer = length + length.clamp(READ_LIMIT, STEP);
    buffer.resize(longer, 0)?;
    Ok(start)
}

// One read into the buffer from `from` on, of at most `most` bytes.
pub(super) fn read_behind<R: LogReader>(
    reader: &mut R,
    buffer: &mut Vec<u8>,
    from: usize,
    most: usize,
) -> io::Result<usize>
    requires calls_fit { R.calls reader.old < 2 ^ 63 }
    requires failures_fit { R.failures reader.old < 2 ^ 63 }
    requires inside { from + most ≤ vec_len buffer.old }
    requires asked { most ≤ READ_LIMIT }
    ensures length { vec_len buffer.new ≡ vec_len buffer.old }
    ensures kept { take from buffer.new.items ≡ take from buffer.old.items }
    ensures bound { IfOk result (λ count. count ≤ most) }
    ensures bytes { ReadConsumes (R.left reader.old) (R.left reader.new) result
        (slice_range buffer.new.items from (from + most)) }
    ensures called { R.calls reader.new ≡ R.calls reader.old + 1 }
    ensures failed { R.failures reader.new
        ≡ failures_after (R.failures reader.old) (read_fails result) }
    ensures last { R.last_failed reader.new ≡ read_fails result }
{
    let end = from + most;
    reader.read(&mut buffer[from..end])
}

// A writer into memory.
ghost use Rattle.std.specs.Prelude.{◌≡◌, ◌-◌, ◌^◌, ◌<◌, ◌≤◌, ◌++◌, [], false, Some, IsOk, IfOk, OnOk, OnErr, length, max, vec_capacity};
ghost use Rattle.std.specs.Io.{WritesAtMost};
ghost use Rattle.std.specs.Io.KnownBytes.{WriteAppends};
ghost use Rattle.test_runner_core_streams.specs.Streams.{write_fails, failures_after, counted_down_to, chosen_failure, memory_answer, piece_answer, Answers};

use super::failures::Failures;
use super::traits::{ReportWriter, write_failed};
use std::alloc::{AllocError, Global};
use std::io;
use std::io::ErrorKind;
use std::marker::Model;

/// How a `MemoryWriter` fails at the call that is chosen to fail.
#[derive(Clone, Copy, Debug, PartialEq, Eq, Hash)]
pub enum WriteFailure {
    /// It answers an error.
    Error,
    /// It takes none of the bytes, as a full pipe may.
    TakesNone,
}

/// A `ReportWriter` into memory that it takes as it is made: no call after that takes any. It takes
/// bytes in pieces, fails where a piece doesn't fit into the room that is left, and can fail at one
/// call.
#[derive(Drop)]
pub struct MemoryWriter {
    written: Vec<u8>,
    room: usize,
    piece: usize,
    fails_after: Option<(u64, WriteFailure)>,
    failures: Failures,
}

impl Model for MemoryWriter {
    ghost use Rattle.std.specs.Prelude.{length, vec_capacity};
    ghost use Rattle.test_runner_core_streams.specs.Streams.{HasItsRoom, MemoryWritten};

    ghost Value = { MemoryWritten };

    ghost view = { λ w. record { written = w.written.items; room = w.room; piece = w.piece; fails_after = w.fails_after; failures = w.failures.count; last_failed = w.failures.last } };

    ghost invariant = { λ w. HasItsRoom w.piece (length w.written.items) w.room (vec_capacity w.written) };
}

/// A clone has memory for all its room too.
impl Clone for MemoryWriter {
    ghost is_clone = { λ original copy. copy ≡ original };

    fn clone(&self) -> Result<Self, AllocError> {
        let mut written = self.written.clone()?;
        written.reserve_exact(self.room - written.len())?;
        Ok(MemoryWriter {
            written,
            room: self.room,
            piece: self.piece,
            fails_after: self.fails_after,
            failures: self.failures,
        })
    }
}

impl MemoryWriter {
    /// A writer with room for `room` bytes in all, that takes at most `piece` of them a call, and
    /// at least one: 0 counts as 1. None of its calls is chosen to fail. It fails only where there
    /// is no memory for the room.
    pub fn new(alloc: Global, room: usize, piece: usize) -> Result<Self, AllocError>
        ensures made { IfOk result (λ w. w ≡ record {
          written = [];
          room = room;
          piece = max piece 1;
          fails_after = None;
          failures = 0;
          last_failed = false;
        }) }
        ensures no_room_needs_no_memory { room ≡ 0 → IsOk result }
    {
        let written = Vec::with_capacity(alloc, room)?;
        Ok(MemoryWriter {
            written,
            room,
            piece: piece.max(1),
            fails_after: None,
            failures: Failures::none(),
        })
    }

    /// The same writer, where the call after `calls` more calls fails in the way `how`, at 0 the
    /// next one. The others fail only where what they would take doesn't fit into the room that is
    /// left.
    pub fn failing_after(self, calls: u64, how: WriteFailure) -> Self
        ensures { result ≡ record self { fails_after = Some (calls, how) } }
    {
        MemoryWriter {
            fails_after: Some((calls, how)),
            ..self
        }
    }

    /// The bytes that it took.
    pub fn written(&self) -> &[u8]
        ensures { result.now ≡ self.now.written }
    {
        self.written.as_slice()
    }

    /// How many bytes it has room for in all, those that it took among them.
    pub fn room(&self) -> usize
        ensures { result ≡ self.now.room }
    {
        self.room
    }

    /// How many calls of `write` failed.
    pub fn failures(&self) -> u64
        ensures { result ≡ self.now.failures }
    {
        self.failures.count
    }

    /// Whether the last call failed.
    pub fn last_failed(&self) -> bool
        ensures { result ≡ self.now.last_failed }
    {
        self.failures.last
    }
}

/// How the next call fails, where it is the one that is chosen to.
fn next_failure(fails_after: Option<(u64, WriteFailure)>) -> Option<WriteFailure>
    ensures { result ≡ chosen_failure fails_after }
{
    match fails_after {
        Some((0, how)) => Some(how),
        _ => None,
    }
}

/// What is left of the way to the call that is chosen to fail, after one more call.
fn one_call_nearer(fails_after: Option<(u64, WriteFailure)>) -> Option<(u64, WriteFailure)>
    ensures { result ≡ counted_down_to fails_after }
{
    match fails_after {
        Some((calls, how)) if calls > 0 => Some((calls - 1, how)),
        _ => None,
    }
}

impl ReportWriter for MemoryWriter {
    ghost taken = { λ w. Some w.written };

    ghost failures = { λ w. w.failures };

    ghost last_failed = { λ w. w.last_failed };

    /// Takes a piece, or all of `bytes` where they are fewer. It fails as `ErrorKind::StorageFull`
    /// where that many don't fit into the room that is left, and in the chosen way at the chosen
    /// call, as `ErrorKind::Other` where that is an error. A call that fails takes nothing.
    fn write(&mut self, bytes: &[u8]) -> io::Result<usize>
        requires { self.old.failures < 2 ^ 63 }

        // What each writer promises.
        ensures bound { WritesAtMost result bytes.now }
        ensures bytes { WriteAppends (Some self.old.written)
            (Some self.new.written) result bytes.now }
        ensures failed { self.new.failures
            ≡ failures_after self.old.failures (write_fails result bytes.now) }
        ensures last { self.new.last_failed ≡ write_fails result bytes.now }

        // What this one answers, and what stays.
        ensures answer { Answers (memory_answer self.old bytes.now) result }
        ensures same_room { self.new.room ≡ self.old.room }
        ensures same_piece { self.new.piece ≡ self.old.piece }
        ensures fails_after { self.new.fails_after ≡ counted_down_to self.old.fails_after }
    {
        let failure = next_failure(self.fails_after);
        self.fails_after = one_call_nearer(self.fails_after);
        let count = self.piece.min(bytes.len());
        let result = match failure {
            Some(WriteFailure::Error) => Err(io::Error::other("this call was chosen to fail")),
            Some(WriteFailure::TakesNone) => Ok(0),
            None => put(&mut self.written, self.room, &bytes[..count]),
        };
        self.failures = self.failures.and(write_failed(&result, bytes));
        result
    }
}

/// Puts all of `piece` behind what is written, or nothing where it doesn't fit into the room.
fn put(written: &mut Vec<u8>, room: usize, piece: &[u8]) -> io::Result<usize>
    requires fits { length written.old.items ≤ room }
    requires taken { room ≤ vec_capacity written.old }
    ensures answer { Answers
        (piece_answer (length piece.now) (room - length written.old.items)) result }
    ensures ok { OnOk result (written.new.items ≡ written.old.items ++ piece.now) }
    ensures err { OnErr result (written.new.items ≡ written.old.items) }
    ensures capacity { vec_capacity written.old ≤ vec_capacity written.new }
{
    if piece.len() > room - written.len() {
        return Err(ErrorKind::StorageFull.into());
    }
    let is_put = written.extend_from_slice(piece).is_ok();
    prove!(is_put);
    Ok(piece.len())
}

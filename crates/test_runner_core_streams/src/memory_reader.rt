// A reader over bytes of memory.
ghost use Rattle.std.specs.Prelude.{◌≡◌, ◌+◌, ◌^◌, ◌<◌, ◌↔◌, false, Some, IsErr, IfOk, IfErr, OnErr, length, drop, min, max};
ghost use Rattle.std.specs.IoError.{error_kind};
ghost use Rattle.std.specs.Io.{ReadsAtMost};
ghost use Rattle.std.specs.Io.KnownBytes.{ReadConsumes};
ghost use Rattle.test_runner_core_streams.specs.Streams.{read_fails, failures_after, counted_down};

use super::failures::Failures;
use super::traits::LogReader;
use std::io;
use std::io::ErrorKind;
use std::marker::Model;

/// A `LogReader` over bytes of memory, which moves them in pieces and can fail at one call. What a
/// failed call would have moved is still there for the next.
#[derive(Drop)]
pub struct MemoryReader<'a> {
    left: &'a [u8],
    piece: usize,
    fails_after: Option<u64>,
    calls: u64,
    failures: Failures,
}

impl<'a> Model for MemoryReader<'a> {
    ghost use Rattle.std.specs.Prelude.{◌<◌};
    ghost use Rattle.test_runner_core_streams.specs.Streams.{MemoryRead};

    ghost Value = { MemoryRead };

    ghost view = { λ r. record { left = r.left.now; piece = r.piece; fails_after = r.fails_after; calls = r.calls; failures = r.failures.count; last_failed = r.failures.last } };

    ghost invariant = { λ r. 0 < r.piece };
}

impl<'a> MemoryReader<'a> {
    /// A reader of `bytes` that moves at most `piece` of them a call, and at least one: 0 counts as
    /// 1. None of its calls fails.
    pub fn new(bytes: &'a [u8], piece: usize) -> Self
        ensures { result ≡ record {
          left = bytes.now;
          piece = max piece 1;
          fails_after = None;
          calls = 0;
          failures = 0;
          last_failed = false;
        } }
    {
        MemoryReader {
            left: bytes,
            piece: piece.max(1),
            fails_after: None,
            calls: 0,
            failures: Failures::none(),
        }
    }

    /// The same reader, where the call after `calls` more calls fails, at 0 the next one; the
    /// others don't.
    pub fn failing_after(self, calls: u64) -> Self
        ensures { result ≡ record self.entry { fails_after = Some calls } }
    {
        MemoryReader {
            fails_after: Some(calls),
            ..self
        }
    }

    /// The bytes that are left.
    pub fn left(&self) -> &'a [u8]
        ensures { result.now ≡ self.now.left }
    {
        self.left
    }

    /// How many calls of `read` there were.
    pub fn calls(&self) -> u64
        ensures { result ≡ self.now.calls }
    {
        self.calls
    }

    /// How many of them failed.
    pub fn failures(&self) -> u64
        ensures { result ≡ self.now.failures }
    {
        self.failures.count
    }

    /// Whether the last call failed.
    pub fn last_failed(&self) -> bool
        ensures { result ≡ self.now.last_failed }
    {
        self.failures.last
    }
}

impl<'a> LogReader for MemoryReader<'a> {
    ghost left = { λ r. Some r.left };

    ghost calls = { λ r. r.calls };

    ghost failures = { λ r. r.failures };

    ghost last_failed = { λ r. r.last_failed };

    /// Moves the smallest of a piece, what is left and the buffer's room. It fails as
    /// `ErrorKind::Other` at the chosen call, where it moves nothing and leaves the buffer alone,
    /// and at no other. It may be asked for any number of bytes.
    fn read(&mut self, buffer: &mut [u8]) -> io::Result<usize>
        requires calls_fit { self.old.calls < 2 ^ 63 }
        requires failures_fit { self.old.failures < 2 ^ 63 }

        // What each reader promises.
        ensures bound { ReadsAtMost result buffer.new }
        ensures bytes { ReadConsumes (Some self.old.left) (Some self.new.left) result buffer.new }
        ensures called { self.new.calls ≡ self.old.calls + 1 }
        ensures failed { self.new.failures ≡ failures_after self.old.failures (read_fails result) }
        ensures last { self.new.last_failed ≡ read_fails result }

        // When this one fails, and how.
        ensures fails_when_chosen { IsErr result ↔ (self.old.fails_after ≡ Some 0) }
        ensures cause { IfErr result (λ e. error_kind e ≡ ErrorKind.Other) }
        ensures untouched { OnErr result (buffer.new ≡ buffer.old) }

        // How much it moves, and what stays.
        ensures count { IfOk result
            (λ n. n ≡ min (min self.old.piece (length self.old.left)) (length buffer.old)) }
        ensures rest_of_buffer { IfOk result (λ n. drop n buffer.new ≡ drop n buffer.old) }
        ensures same_piece { self.new.piece ≡ self.old.piece }
        ensures fails_after { self.new.fails_after ≡ counted_down self.old.fails_after }
    {
        self.calls += 1;
        self.failures = self.failures.and(self.fails_after == Some(0));
        self.fails_after = self.fails_after.and_then(|calls| calls.checked_sub(1));
        if self.failures.last {
            return Err(io::Error::other("this call was chosen to fail"));
        }
        let count = self.piece.min(self.left.len()).min(buffer.len());
        let (moved, rest) = self.left.split_at(count);
        buffer[..count].copy_from_slice(moved);
        self.left = rest;
        Ok(count)
    }
}

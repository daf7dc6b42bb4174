// The two streams, and what each call of one means.
ghost use Rattle.std.specs.Prelude.{◌≡◌, ℕ, ◌+◌, ◌^◌, ◌<◌, ◌≤◌, Bool, List, length, Option, None};
ghost use Rattle.std.specs.Io.{ReadsAtMost, WritesAtMost};
ghost use Rattle.std.specs.Io.KnownBytes.{ReadConsumes, WriteAppends};
ghost use Rattle.test_runner_core_streams.specs.Streams.{read_fails, write_fails, failures_after};

use std::io;

/// How many bytes a reader is asked for at most in one call.
pub const READ_LIMIT: usize = 65_536;

/// What a log is read from.
pub trait LogReader {
    /// The bytes that reads will give from here on, where they are known.
    ghost left: { Self → Option (List ℕ) } = { λ _. None };

    /// How many calls of `read` there were.
    ghost calls: { Self → ℕ };

    /// How many of them failed.
    ghost failures: { Self → ℕ };

    /// Whether the last call failed.
    ghost last_failed: { Self → Bool };

    /// Moves the next bytes to the start of `buffer` and answers how many. It answers 0 only at the
    /// end or where `buffer` has no room, and fails with the cause, which moves nothing. It is asked
    /// for at most `READ_LIMIT` bytes.
    fn read(&mut self, buffer: &mut [u8]) -> io::Result<usize>
        requires calls_fit { calls self.old < 2 ^ 63 }
        requires failures_fit { failures self.old < 2 ^ 63 }
        requires asked { length buffer.old ≤ READ_LIMIT }
        ensures bound { ReadsAtMost result buffer.new }
        ensures bytes { ReadConsumes (left self.old) (left self.new) result buffer.new }
        ensures called { calls self.new ≡ calls self.old + 1 }
        ensures failed { failures self.new
            ≡ failures_after (failures self.old) (read_fails result) }
        ensures last { last_failed self.new ≡ read_fails result };
}

/// What a report is written to.
pub trait ReportWriter {
    /// The bytes that it took so far, where they are known.
    ghost taken: { Self → Option (List ℕ) } = { λ _. None };

    /// How many calls of `write` failed.
    ghost failures: { Self → ℕ };

    /// Whether the last call failed.
    ghost last_failed: { Self → Bool };

    /// Takes bytes from the start of `bytes` and answers how many. It fails with the cause, which
    /// takes nothing; to take none of some bytes counts as a failure too.
    fn write(&mut self, bytes: &[u8]) -> io::Result<usize>
        requires { failures self.old < 2 ^ 63 }
        ensures bound { WritesAtMost result bytes.now }
        ensures bytes { WriteAppends (taken self.old) (taken self.new) result bytes.now }
        ensures failed { failures self.new
            ≡ failures_after (failures self.old) (write_fails result bytes.now) }
        ensures last { last_failed self.new ≡ write_fails result bytes.now };
}

/// Whether a `write` of `bytes` failed: it answered an error, or took none of some bytes.
pub(crate) fn write_failed(answer: &io::Result<usize>, bytes: &[u8]) -> bool
    ensures { result ≡ write_fails answer.now bytes.now }
{
    match answer {
        Ok(taken) => *taken == 0 && !bytes.is_empty(),
        Err(_) => true,
    }
}

// The two streams over std's `Read` and `Write`.
ghost use Rattle.std.specs.Prelude.{◌≡◌, ◌+◌, ◌^◌, ◌<◌, false};
ghost use Rattle.std.specs.Io.{ReadsAtMost};
ghost use Rattle.std.specs.Io.KnownBytes.{ReadConsumes};
ghost use Rattle.test_runner_core_streams.specs.Streams.{read_fails, failures_after};

use super::failures::Failures;
use super::traits::{LogReader, ReportWriter, write_failed};
use std::io;
use std::io::{Read, Write};
use std::marker::Model;

/// A `LogReader` over one of std's readers. Each call is one call of the reader below, and a failed
/// one is never tried again, also where it was interrupted.
#[derive(Drop)]
pub struct StdReader<R> {
    inner: R,
    calls: u64,
    failures: Failures,
}

/// A `ReportWriter` over one of std's writers. Each call is one call of the writer below: a failed
/// one is never tried again, also where it was interrupted, and nothing is flushed.
#[derive(Drop)]
pub struct StdWriter<W> {
    inner: W,
    failures: Failures,
}

impl<R> Model for StdReader<R> {
    ghost use Rattle.test_runner_core_streams.specs.Streams.{Counted};

    ghost Value = { Counted R };

    ghost view = { λ r. record { inner = r.inner; calls = r.calls; failures = r.failures.count; last_failed = r.failures.last } };
}

impl<R> StdReader<R> {
    /// A reader that wasn't called yet.
    pub fn new(inner: R) -> Self
        ensures { result ≡ record { inner = inner; calls = 0; failures = 0; last_failed = false } }
    {
        StdReader {
            inner,
            calls: 0,
            failures: Failures::none(),
        }
    }

    /// How many calls of `read` there were.
    pub fn calls(&self) -> u64
        ensures { result ≡ self.now.calls }
    {
        self.calls
    }

    /// How many of them failed.
    pub fn failures(&self) -> u64
        ensures { result ≡ self.now.failures }
    {
        self.failures.count
    }

    /// Whether the last call failed.
    pub fn last_failed(&self) -> bool
        ensures { result ≡ self.now.last_failed }
    {
        self.failures.last
    }

    /// The reader below.
    pub fn into_inner(self) -> R
        ensures { result ≡ self.inner }
    {
        let StdReader {
            inner,
            calls: _,
            failures: _,
        } = self;
        inner
    }
}

impl<R: Read> LogReader for StdReader<R> {
    ghost left = { λ r. R.remaining r.inner };

    ghost calls = { λ r. r.calls };

    ghost failures = { λ r. r.failures };

    ghost last_failed = { λ r. r.last_failed };

    /// Reads once from the reader below, and answers what that answers. It may be asked for any
    /// number of bytes.
    fn read(&mut self, buffer: &mut [u8]) -> io::Result<usize>
        requires calls_fit { self.old.calls < 2 ^ 63 }
        requires failures_fit { self.old.failures < 2 ^ 63 }
        ensures bound { ReadsAtMost result buffer.new }
        ensures bytes { ReadConsumes (R.remaining self.old.inner)
            (R.remaining self.new.inner) result buffer.new }
        ensures called { self.new.calls ≡ self.old.calls + 1 }
        ensures failed { self.new.failures ≡ failures_after self.old.failures (read_fails result) }
        ensures last { self.new.last_failed ≡ read_fails result }
    {
        let result = self.inner.read(buffer);
        self.calls += 1;
        self.failures = self.failures.and(result.is_err());
        result
    }
}

impl<W> Model for StdWriter<W> {
    ghost use Rattle.test_runner_core_streams.specs.Streams.{CountedWriter};

    ghost Value = { CountedWriter W };

    ghost view = { λ w. record { inner = w.inner; failures = w.failures.count; last_failed = w.failures.last } };
}

impl<W> StdWriter<W> {
    /// A writer that wasn't called yet.
    pub fn new(inner: W) -> Self
        ensures { result ≡ record { inner = inner; failures = 0; last_failed = false } }
    {
        StdWriter {
            inner,
            failures: Failures::none(),
        }
    }

    /// How many calls of `write` failed.
    pub fn failures(&self) -> u64
        ensures { result ≡ self.now.failures }
    {
        self.failures.count
    }

    /// Whether the last call failed.
    pub fn last_failed(&self) -> bool
        ensures { result ≡ self.now.last_failed }
    {
        self.failures.last
    }

    /// The writer below.
    pub fn into_inner(self) -> W
        ensures { result ≡ self.inner }
    {
        let StdWriter { inner, failures: _ } = self;
        inner
    }
}

impl<W: Write> ReportWriter for StdWriter<W> {
    ghost taken = { λ w. W.contents w.inner };

    ghost failures = { λ w. w.failures };

    ghost last_failed = { λ w. w.last_failed };

    /// Writes once to the writer below, and answers what that answers.
    fn write(&mut self, bytes: &[u8]) -> io::Result<usize> {
        let result = self.inner.write(bytes);
        self.failures = self.failures.and(write_failed(&result, bytes));
        result
    }
}

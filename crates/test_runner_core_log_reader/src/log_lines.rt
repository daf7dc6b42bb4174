// The lines of a log, one at a time.
ghost use Rattle.std.specs.Prelude.{◌≡◌, ◌+◌, ◌-◌, ◌^◌, ◌<◌, ◌≤◌, ◌||◌, [], false, true, Some, IfOk, IfSome, OnErr, length, nat_lt};
ghost use Rattle.std.specs.Io.KnownBytes.{IsAtEnd};
ghost use Rattle.test_runner_core_log_reader.specs.Items.{line_fault};
ghost use Rattle.test_runner_core_log_reader.specs.Limits.{first_line_reads, log_reads};
ghost use Rattle.test_runner_core_log_reader.specs.Cursor.{IsNear, Unmoved, bytes_received, tells_next};
ghost use Rattle.test_runner_core_log_reader.specs.Feeds.{IsFirstFeed, IsPlain, before_feed};
ghost use Rattle.test_runner_core_log_reader.specs.Calls.{Cut, GetsNear, GetsPlain, Hands, HandsAhead, HandsBytes, IsUnread, KeepsAhead, PartsAtFirst, Scanned, ScannedFirst, TellsFailure, WaitsMore, end_of, idle_reads, scan_of as scan_told};

use super::buffer::{LONGEST, read_behind, shorten, with_room};
use super::fault::{LineFault, LogFault, fault_of};
use super::limits::{FIRST_LINE_LIMIT, LINE_LIMIT, LOG_LIMIT};
use super::next::{Next, Scan};
use memchr::memchr;
use std::alloc::Global;
use std::marker::Model;
use test_runner_core_streams::{LogReader, READ_LIMIT};

/// Cuts the bytes of a reader into lines. The reader is passed to each call; it has to be the same
/// one. It is asked for more only where no line feed waits, and for at most `READ_LIMIT` bytes at
/// once, so fewer than that many bytes are taken past the end of the line that is at hand.
#[derive(Drop)]
pub struct LogLines {
    buffer: Vec<u8>,
    line_start: usize,
    line_end: usize,
    start: usize,
    scanned: usize,
    end: usize,
    handed: usize,
}

impl Model for LogLines {
    ghost use Rattle.test_runner_core_log_reader.specs.Items.{line_fault};
    ghost use Rattle.test_runner_core_log_reader.specs.Cursor.{Cursor};

    ghost Value = { Cursor };

    ghost use Rattle.test_runner_core_log_reader.specs.Inside.{cursor_of, IsInOrder};

    ghost view = { cursor_of };

    ghost invariant = { IsInOrder };
}

impl LogLines {
    /// At the beginning of a log. Takes no memory; the first call of `next` does.
    pub fn new(alloc: Global) -> Self
        ensures { result ≡ record { line = []; waiting = []; handed = 0 } }
    {
        LogLines {
            buffer: Vec::new(alloc),
            line_start: 0,
            line_end: 0,
            start: 0,
            scanned: 0,
            end: 0,
            handed: 0,
        }
    }

    /// At the beginning of a log that stands behind a first line in a stream. It takes that line,
    /// up to the first line feed or the stream's end, off the front, and `line` lends it until the
    /// first call of `next`; its memory is given back as the log is read on. `None` where it has
    /// more than `FIRST_LINE_LIMIT` bytes. Where the reader fails or there is no memory for the
    /// line, what was read is lost; no line feed was among it. Fewer than `READ_LIMIT` bytes are
    /// taken past the first line feed, and each call of the reader but the last brings some of the
    /// first line.
    pub fn behind_first_line<R: LogReader>(
        alloc: Global,
        reader: &mut R,
    ) -> Result<Option<Self>, LogFault>
        requires calls_fit { R.calls reader.old + 2 ^ 31 ≤ 2 ^ 63 }
        requires failures_fit { R.failures reader.old < 2 ^ 63 }
        ensures lines { IfOk result
            (λ lines. PartsAtFirst (R.left reader.old) lines (R.left reader.new)) }
        ensures fresh { IfOk result (λ lines. IfSome lines (λ it. it.handed ≡ 0)) }
        ensures cut { OnErr result (GetsPlain (R.left reader.old) (R.left reader.new)) }
        ensures near { GetsNear (R.left reader.old) (R.left reader.new) }
        ensures few { IfOk result
            (λ lines. IfSome lines (λ it. length it.waiting < READ_LIMIT)) }
        ensures reads { R.calls reader.new ≤ R.calls reader.old + first_line_reads }
        ensures reads_known { IfSome (R.left reader.old) (λ bytes.
            R.calls reader.new ≤ R.calls reader.old + length (before_feed bytes) + 1) }
        ensures failures { TellsFailure result (R.failures reader.old) (R.failures reader.new)
            (R.last_failed reader.new) }
    {
        let mut lines = LogLines::new(alloc);
        loop {
            match lines.scan_first() {
                Scan::Line => return Ok(Some(lines)),
                Scan::Refused(_) => return Ok(None),
                Scan::Waits => {}
            }
            let moved = lines.fill(reader)?;
            if moved == 0 {
                lines.cut_all();
                return Ok(Some(lines));
            }
        }
    }

    /// The line that the last call of `next` found, without its line feed; no bytes where it found
    /// none.
    pub fn line(&self) -> &[u8]
        ensures { result.now ≡ self.now.line }
    {
        &self.buffer[self.line_start..self.line_end]
    }

    /// Whether the next call of `next` needs no read: the bytes that were read tell a line, or that
    /// one or the log is too long. It forgets the line before.
    pub fn is_waiting(&mut self) -> bool
        ensures exact { result ≡ tells_next self.old }
        ensures unmoved { Unmoved self.old self.new }
    {
        if self.find_feed().is_some() {
            return true;
        }
        is_over_limit(self.handed, self.end - self.start)
    }

    /// Finds the next line, and reads as far as that needs: not at all where `is_waiting` answers
    /// `true`. `Line` hands it out, and `line` lends it until the next call. A refusal or the end
    /// stays ahead, and so does all else where the reader fails or there is no memory for the line;
    /// no whole line was read then. The reader is never asked past the first byte that is over the
    /// log's limit. Fewer than `READ_LIMIT` bytes wait behind the line that it hands out or, where
    /// it hands out none, behind the first line feed.
    pub fn next<R: LogReader>(&mut self, reader: &mut R) -> Result<Next, LogFault>
        requires calls_fit { R.calls reader.old + 2 ^ 31 ≤ 2 ^ 63 }
        requires failures_fit { R.failures reader.old < 2 ^ 63 }
        ensures items { Hands self.old (R.left reader.old) self.new (R.left reader.new) result }
        ensures bytes { HandsAhead self.old (R.left reader.old) self.new
            (R.left reader.new) result }
        ensures handed { HandsBytes result self.old self.new }
        ensures reads { R.calls reader.new + bytes_received self.old
            ≤ R.calls reader.old + bytes_received self.new + idle_reads result }
        ensures limit { bytes_received self.new + idle_reads result ≤ log_reads }
        ensures unread { tells_next self.old ≡ true
            → IsUnread result (R.calls reader.old) (R.calls reader.new) }
        ensures still { tells_next self.old ≡ true → R.left reader.new ≡ R.left reader.old }
        ensures cut { OnErr result (IsPlain self.new.waiting) }
        ensures near { IsNear self.new }
        ensures few { result ≡ Ok Next.Line → length self.new.waiting < READ_LIMIT }
        ensures failures { TellsFailure result (R.failures reader.old) (R.failures reader.new)
            (R.last_failed reader.new) }
    {
        let _within = &self.buffer;
        self.give_back();
        loop {
            match self.scan() {
                Scan::Line => return Ok(Next::Line),
                Scan::Refused(fault) => return Ok(Next::Refused(fault)),
                Scan::Waits => {}
            }
            let count = self.fill(reader)?;
            if count == 0 {
                return Ok(self.at_end());
            }
        }
    }

    // Gives back the memory of what was handed out, where that is more than half of a long buffer;
    // the line before is forgotten then. So the memory of a stream's first line is free once the
    // log is read on.
    fn give_back(&mut self)
        ensures { Unmoved self.old self.new }
    {
        if self.buffer.len() <= LONGEST || self.start <= self.buffer.len() / 2 {
            return;
        }
        shorten(&mut self.buffer, self.start, self.end);
        self.line_start = 0;
        self.line_end = 0;
        self.scanned -= self.start;
        self.end -= self.start;
        self.start = 0;
    }

    // Looks for a line in the bytes that wait. It forgets the line before.
    fn scan(&mut self) -> Scan
        ensures { Scanned result self.old self.new }
    {
        let Some(length) = self.find_feed() else {
            return scan_of(fault_of(self.handed, self.end - self.start, false));
        };
        if let Some(fault) = fault_of(self.handed, length, true) {
            return Scan::Refused(fault);
        }
        self.cut(length);
        self.handed += length + 1;
        Scan::Line
    }

    // Takes the first line of a stream off the bytes that wait, where they tell it.
    fn scan_first(&mut self) -> Scan
        ensures { ScannedFirst result self.old self.new }
    {
        let found = self.find_feed();
        if found.unwrap_or(self.end - self.start) > FIRST_LINE_LIMIT {
            return Scan::Refused(LineFault::LineTooLong);
        }
        let Some(length) = found else {
            return Scan::Waits;
        };
        self.cut(length);
        Scan::Line
    }

    // Where the first line feed stands in the bytes that wait. It is looked for from where the last
    // look ended, which is where it found the line feed, so that a second look costs nothing; the
    // line before is forgotten.
    fn find_feed(&mut self) -> Option<usize>
        ensures feed { IsFirstFeed self.old.waiting result }
        ensures unmoved { Unmoved self.old self.new }
    {
        self.line_start = 0;
        self.line_end = 0;
        let Some(at) = first_feed(&self.buffer[self.scanned..self.end]) else {
            self.scanned = self.end;
            return None;
        };
        self.scanned += at;
        Some(self.scanned - self.start)
    }

    // Cuts the line of this length and its line feed off the bytes that wait.
    fn cut(&mut self, length: usize)
        requires { IsFirstFeed self.old.waiting (Some length) }
        ensures { Cut length self.old self.new }
    {
        self.line_start = self.start;
        self.line_end = self.start + length;
        self.start = self.line_end + 1;
        self.scanned = self.start;
    }

    // All that waits is the line.
    fn cut_all(&mut self)
        ensures line { self.new.line ≡ self.old.waiting }
        ensures waiting { self.new.waiting ≡ [] }
        ensures handed { self.new.handed ≡ self.old.handed }
    {
        self.line_start = self.start;
        self.line_end = self.end;
        self.start = self.end;
        self.scanned = self.end;
    }

    // One read behind the bytes that wait, where no line feed is among them. Takes memory where the
    // buffer is full.
    fn fill<R: LogReader>(&mut self, reader: &mut R) -> Result<usize, LogFault>
        requires more { bytes_received self.old ≤ LOG_LIMIT }
        requires plain { IsPlain self.old.waiting }
        requires calls_fit { R.calls reader.old < 2 ^ 63 }
        requires failures_fit { R.failures reader.old < 2 ^ 63 }
        ensures ahead { KeepsAhead self.old (R.left reader.old) self.new (R.left reader.new) }
        ensures handed { self.new.handed ≡ self.old.handed }
        ensures ok { IfOk result (WaitsMore self.old self.new) }
        ensures err { OnErr result (WaitsMore self.old self.new 0) }
        ensures limit { bytes_received self.new ≤ log_reads }
        ensures near { IsNear self.new }
        ensures end { IfOk result (λ count. count ≡ 0 → IsAtEnd (R.left reader.new)) }
        ensures called { R.calls reader.new ≤ R.calls reader.old + 1 }
        ensures failures { TellsFailure result (R.failures reader.old) (R.failures reader.new)
            (R.last_failed reader.new) }
    {
        self.line_start = 0;
        self.line_end = 0;
        let begin = with_room(&mut self.buffer, self.start, self.end)?;
        self.scanned = begin + (self.scanned - self.start);
        self.end = begin + (self.end - self.start);
        self.start = begin;
        let unread = LOG_LIMIT + 1 - self.handed - (self.end - begin);
        let room = self.buffer.len() - self.end;
        let most = unread.min(room).min(READ_LIMIT);
        let count = read_behind(reader, &mut self.buffer, self.end, most)?;
        self.end += count;
        Ok(count)
    }

    // What the bytes that wait are at the log's end.
    fn at_end(&self) -> Next
        ensures { result ≡ end_of (line_fault self.now.handed (length self.now.waiting) false) }
    {
        match fault_of(self.handed, self.end - self.start, false) {
            Some(fault) => Next::Refused(fault),
            None => Next::End,
        }
    }
}

// Where the first line feed stands.
fn first_feed(bytes: &[u8]) -> Option<usize>
    ensures { IsFirstFeed bytes.now result }
{
    memchr(b'\n', bytes)
}

// Whether so many bytes that wait, behind so many of the log, are too many whatever follows.
fn is_over_limit(before: usize, waiting: usize) -> bool
    requires { before + waiting < 2 ^ 63 }
    ensures { result ≡ (nat_lt LINE_LIMIT waiting || nat_lt LOG_LIMIT (before + waiting)) }
{
    waiting > LINE_LIMIT || before + waiting > LOG_LIMIT
}

// What bytes without a line feed tell, by what would be wrong with them at the log's end.
fn scan_of(fault: Option<LineFault>) -> Scan
    ensures { result ≡ scan_told fault }
{
    match fault {
        Some(LineFault::LineTooLong) => Scan::Refused(LineFault::LineTooLong),
        Some(LineFault::LogTooLong) => Scan::Refused(LineFault::LogTooLong),
        Some(LineFault::NoLineEnd) => Scan::Waits,
        None => Scan::Waits,
    }
}

// Runs, each of whose reads and writes fails in turn: it is told, nothing is tried again, and the
// report is a prefix. Where a read fails, it is what the whole lines tell that were read before.
use super::judging::{End, end_of_log, end_of_stream};
use super::runs::{LIMIT_ENDS_WHAT_RUNS, PASSES_AT_SECOND_TRY, Run, SCRIPT_TIMES_OUT, THREE_TESTS};
use std::alloc::{AllocError, Global};
use std::io;
use std::io::{ErrorKind, Read, Write};
use std::process::Abort;
use std::test::Fail;
use test_runner_core::{
    Inputs, MemoryReader, MemoryWriter, StdReader, StdWriter, TableLister, WriteFailure,
};

// In which way a call fails.
enum Fault {
    // A read, of a reader that moves so many bytes a call.
    Read(usize),
    // A write, of a writer that takes a byte a call, as this kind.
    Write(WriteFailure, ErrorKind),
}

const FAULTS: [(&str, Fault); 4] = [
    ("a read of a byte", Fault::Read(1)),
    ("a read of 64 bytes", Fault::Read(64)),
    (
        "an error",
        Fault::Write(WriteFailure::Error, ErrorKind::Other),
    ),
    (
        "nothing taken",
        Fault::Write(WriteFailure::TakesNone, ErrorKind::WriteZero),
    ),
];

// Room for each report.
const ROOM: usize = 1024;

// The call that is never made.
const NEVER: usize = usize::MAX;

// Streams of which a call may fail, and what judging by them comes to.
#[derive(Clone, Copy)]
struct Case {
    // So many bytes are moved a read, and the read after so many fails.
    piece: usize,
    reads: usize,
    // The write after so many fails in this way.
    writes: usize,
    how: WriteFailure,
    // How it ends, and what is written, a prefix of the report.
    end: End,
    told: &'static [u8],
    report: &'static [u8],
}

// A run of which so many bytes are to be read, where the call after so many fails in this way, if
// there is one.
fn case_of(run: &Run, bytes: usize, fault: &Fault, calls: usize) -> Case {
    let whole = Case {
        piece: 1,
        reads: NEVER,
        writes: NEVER,
        how: WriteFailure::Error,
        end: End::Status(run.status),
        told: run.report,
        report: run.report,
    };
    match *fault {
        // Each piece is a read, and one more finds the end.
        Fault::Read(piece) if calls <= bytes.div_ceil(piece.max(1)) => Case {
            piece,
            reads: calls,
            end: End::Read(ErrorKind::Other),
            told: run.told_before(bytes.saturating_sub(calls.saturating_mul(piece))),
            ..whole
        },
        // Each byte is a write.
        Fault::Write(how, kind) if calls < run.report.len() => Case {
            writes: calls,
            how,
            end: End::Write(kind),
            told: &run.report[..calls],
            ..whole
        },
        _ => whole,
    }
}

// Whether bytes come to that, which are the log of inputs, or without these a stream of both. The
// call that fails is the last one.
fn comes_to(
    alloc: Global,
    inputs: Option<&Inputs>,
    bytes: &[u8],
    case: &Case,
) -> Result<bool, AllocError> {
    let mut input = MemoryReader::new(bytes, case.piece).failing_after(case.reads as u64);
    let report = MemoryWriter::new(alloc, ROOM, 1)?.clone()?;
    let mut report = report.failing_after(case.writes as u64, case.how);
    let end = match inputs {
        Some(inputs) => {
            let mut lister = TableLister::new(alloc, &inputs.workspace)?;
            end_of_log(alloc, inputs, &mut lister, &mut input, &mut report)
        }
        None => end_of_stream(alloc, &mut input, &mut report),
    };
    let came_to = (
        end,
        input.last_failed(),
        report.last_failed(),
        report.written(),
    );
    let due = (
        case.end,
        case.reads != NEVER,
        case.writes != NEVER,
        case.told,
    );
    Ok(came_to == due && case.report.starts_with(case.told))
}

// Each call that fails so is told, up to the case in which none fails.
fn tells_each(
    rt: &impl Abort,
    alloc: Global,
    run: &Run,
    inputs: Option<&Inputs>,
    bytes: &[u8],
    (name, fault): &(&str, Fault),
) -> Result<(), AllocError> {
    for calls in 0..=bytes.len().max(run.report.len()) {
        let case = case_of(run, bytes.len(), fault, calls);
        let is_told = comes_to(alloc, inputs, bytes, &case)?;
        assert!(rt; is_told, "{name}, after {calls} calls");
        if case.reads == NEVER && case.writes == NEVER {
            return Ok(());
        }
    }
    Ok(())
}

// Each call of a run that fails is told, by its inputs and its log, and by one stream.
fn tells_all(rt: &impl Abort, alloc: Global, run: &Run) -> Result<(), Fail> {
    let (inputs, log) = run.parts();
    let inputs = Inputs::from_json(alloc, inputs.as_bytes())?;
    for fault in &FAULTS {
        tells_each(rt, alloc, run, Some(&inputs), log.as_bytes(), fault)?;
        tells_each(rt, alloc, run, None, run.stream.as_bytes(), fault)?;
    }
    Ok(())
}

#[test]
fn each_call_that_fails_is_told(rt: HostRuntime) -> Result<(), Fail> {
    for run in [
        &PASSES_AT_SECOND_TRY,
        &SCRIPT_TIMES_OUT,
        &LIMIT_ENDS_WHAT_RUNS,
        &THREE_TESTS,
    ] {
        tells_all(&rt, rt.alloc(), run)?;
    }
    Ok(())
}

// Moves 64 bytes a call. The one of this number is interrupted.
#[derive(Drop)]
struct FaultyReader<'a> {
    left: &'a [u8],
    faulty: u64,
    calls: u64,
}

impl<'a> Read for FaultyReader<'a> {
    fn read(&mut self, buf: &mut [u8]) -> io::Result<usize> {
        self.calls = self.calls.saturating_add(1);
        if self.calls == self.faulty {
            return Err(ErrorKind::Interrupted.into());
        }
        let count = self.left.len().min(buf.len()).min(64);
        buf[..count].copy_from_slice(&self.left[..count]);
        self.left = &self.left[count..];
        Ok(count)
    }
}

// Takes 64 bytes a call. At the second it takes none or is interrupted.
#[derive(Drop)]
struct FaultyWriter {
    takes_none: bool,
    calls: u64,
    flushes: u64,
}

impl Write for FaultyWriter {
    fn write(&mut self, buf: &[u8]) -> io::Result<usize> {
        self.calls = self.calls.saturating_add(1);
        if self.calls != 2 {
            return Ok(buf.len().min(64));
        }
        if self.takes_none {
            return Ok(0);
        }
        Err(ErrorKind::Interrupted.into())
    }

    fn flush(&mut self) -> io::Result<()> {
        self.flushes = self.flushes.saturating_add(1);
        Ok(())
    }
}

#[test]
fn std_streams_are_not_tried_again(rt: HostRuntime) {
    let run = &PASSES_AT_SECOND_TRY;
    // The second read fails, or the second write does.
    for (faulty, takes_none, end, writes) in [
        (2, false, End::Read(ErrorKind::Interrupted), 0),
        (0, true, End::Write(ErrorKind::WriteZero), 2),
        (0, false, End::Write(ErrorKind::Interrupted), 2),
    ] {
        let mut input = StdReader::new(FaultyReader {
            left: run.stream.as_bytes(),
            faulty,
            calls: 0,
        });
        let mut report = StdWriter::new(FaultyWriter {
            takes_none,
            calls: 0,
            flushes: 0,
        });
        let came_to = end_of_stream(rt.alloc(), &mut input, &mut report);
        let (above, below) = (input.into_inner(), report.into_inner());
        assert!(rt; (came_to, below.calls, below.flushes) == (end, writes, 0));
        assert!(rt; faulty == 0 || above.calls == faulty);
    }
}

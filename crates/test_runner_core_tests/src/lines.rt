// The lines of a log in pieces, and behind reads that fail.
use std::alloc::Global;
use std::process::Abort;
use test_runner_core::{
    LineFault, LineRefusal, LogFault, LogLines, MemoryReader, Next, RefusedLine, first_refused,
};

// Finds the next line of a log that is far from the end of what is counted.
fn next_of(
    rt: &impl Abort,
    lines: &mut LogLines,
    reader: &mut MemoryReader,
) -> Result<Next, LogFault> {
    assert!(rt; reader.calls() < 1_000_000 && reader.failures() < 1_000_000);
    lines.next(reader)
}

// The lines of a log without their ends; the last one has none.
const LINES: [&[u8]; 3] = [b"one", b"", b"two"];

// How many lines there are of a log, up to the first that isn't the one that is due, what ended
// them, and how many reads failed. A read that fails is tried again.
fn told(rt: &impl Abort, alloc: Global, mut reader: MemoryReader) -> (usize, Next, u64) {
    let mut lines = LogLines::new(alloc);
    let mut count = 0;
    for _ in 0..100 {
        match next_of(rt, &mut lines, &mut reader) {
            Ok(Next::Line) if LINES.get(count) == Some(&lines.line()) => {
                count = count.saturating_add(1);
            }
            Ok(end) => return (count, end, reader.failures()),
            Err(_) => {}
        }
    }
    (count, Next::Line, reader.failures())
}

#[test]
fn a_read_that_fails_loses_nothing(rt: HostRuntime) {
    // Each byte is a read, and one more finds the end.
    for failing in 0..11 {
        let reader = MemoryReader::new(b"one\n\ntwo\nx", 1).failing_after(failing);
        let due = (3, Next::Refused(LineFault::NoLineEnd), 1);
        assert!(rt; told(&rt, rt.alloc(), reader) == due, "{failing}");
    }
}

#[test]
fn the_first_refused_line_is_told(rt: HostRuntime) {
    let third = RefusedLine {
        line: 3,
        refusal: LineRefusal::BadLine,
    };
    for (log, due) in [
        (b"start\tp\ta\n\nstart\tp\n".as_slice(), Some(third)),
        (b"start\tp\ta\n\nstart\tp\tb\n".as_slice(), None),
    ] {
        let mut reader = MemoryReader::new(log, 4);
        assert!(rt; first_refused(rt.alloc(), &mut reader).ok() == Some(due));
    }
}

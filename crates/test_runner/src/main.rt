//! The program `test-runner`: the first line of standard input is the JSON inputs, the rest is the
//! log; the report goes to standard output and the status is the exit status.
#![tactic(auto)]

use std::process::ExitCode;
use std::{env, io};
use test_runner_core::{StdReader, StdWriter, judge_stream};

// The exit statuses: of wrong use, and where standard input or output or memory fails.
const USAGE: u8 = 2;

const FAULT: u8 = 74;

fn main(rt: HostRuntime) -> ExitCode {
    let is_used_well = match env::args(&rt) {
        Ok(arguments) => arguments.count() <= 1,
        Err(_) => return ExitCode::from(FAULT),
    };
    if !is_used_well {
        let _ = eprintln!(rt; "usage: test-runner");
        return ExitCode::from(USAGE);
    }
    let mut input = StdReader::new(rt.reader());
    let mut report = StdWriter::new(io::writer(&rt));
    match judge_stream(rt.alloc(), &mut input, &mut report) {
        Ok(status) => ExitCode::from(status),
        Err(_) => ExitCode::from(FAULT),
    }
}

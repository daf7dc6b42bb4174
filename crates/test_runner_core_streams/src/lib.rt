//! Where a log comes from and where a report goes to.
//!
//! A `LogReader` and a `ReportWriter` say what each call moved and count the calls that failed, so
//! that what stands on them can say which stream failed, and when. A reader is asked for at most
//! `READ_LIMIT` bytes a call. `StdReader` and `StdWriter` are these over std's `Read` and `Write`;
//! `MemoryReader` and `MemoryWriter` move bytes of memory, in pieces of a chosen size, and fail at
//! a chosen call.
#![tactic(auto)]

mod failures;
mod memory_reader;
mod memory_writer;
mod std_streams;
mod traits;
mod whole_write;

pub use memory_reader::MemoryReader;
pub use memory_writer::{MemoryWriter, WriteFailure};
pub use std_streams::{StdReader, StdWriter};
pub use traits::{LogReader, READ_LIMIT, ReportWriter};
pub use whole_write::write_all;

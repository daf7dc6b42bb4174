//! The lines of a log, cut from any reader at its line feeds.
//!
//! `LogLines` keeps what it read and did not hand out yet, and hands out one line at a time,
//! without its line feed. However the reader cuts the bytes, the lines are those of the whole log;
//! a line or a log past its limit, and a last line without a line feed, are told as a `LineFault`
//! at the byte at which they become so.
#![tactic(auto)]

mod buffer;
mod fault;
mod limits;
mod log_lines;
mod next;

pub use fault::{LineFault, LogFault};
pub use limits::{FIRST_LINE_LIMIT, LINE_LIMIT, LOG_LIMIT};
pub use log_lines::LogLines;
pub use next::Next;

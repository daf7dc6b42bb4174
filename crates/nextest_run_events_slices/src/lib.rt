//! Which part of a failed test's output tells of its error: its last panic, its first error, or
//! that it should have panicked.
#![tactic(auto)]

mod errors;
mod heads;
pub mod laws;
mod notes;
mod panics;
mod slices;

pub use slices::{ByteSubslice, TestOutputErrorSlice};

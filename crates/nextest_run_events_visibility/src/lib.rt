//! What is shown of a finished test: at once, and at the end of the run.
#![tactic(auto)]

pub mod laws;
mod visibility;

pub use visibility::{OutputOnTestFinished, OutputStoreFinal, StatusLevels};

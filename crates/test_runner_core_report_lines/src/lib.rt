//! What a report says of tests: the lines that are written as a test finishes, and its lines in the
//! final text; and of scripts, which have lines in the final text alone.
#![tactic(auto)]

mod fate;
mod finished_test;
pub mod laws;
mod lines;
mod outputs;
mod report;
mod reported_test;
mod shows;
mod writing;
mod written;

pub use fate::ReportedFate;
pub use report::{push_done, push_script, push_shown};
pub use reported_test::ReportedTest;
pub use shows::Shows;

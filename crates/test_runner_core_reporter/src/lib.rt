//! How a run is reported: what is written as tests finish, and the final text.
#![tactic(auto)]

mod fault;
mod final_text;
pub mod laws;
mod opening;
mod reporting;
mod run_end;
mod steps;

pub use fault::ReportFault;
pub use final_text::{ShownTest, is_settled, report_final};
pub use opening::report_opening;
pub use reporting::{report_done, report_script, report_shown, report_words, write_waiting};
pub use run_end::RunEnd;
pub use steps::report_step;

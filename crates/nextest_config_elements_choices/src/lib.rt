//! The plain values of the configuration: how a test's or a script's end is judged, how much a
//! failing test weighs, when a run stops, what is run, and what is shown of it.
#![tactic(auto)]

mod fail_weight;
pub mod laws;
mod max_fail;
mod output_display;
mod run_mode;
mod status_level;
mod timeouts;

pub use fail_weight::{FailWeight, FailWeightOutOfRange};
pub use max_fail::{BadText, MaxFail, TerminateMode};
pub use output_display::TestOutputDisplay;
pub use run_mode::NextestRunMode;
pub use status_level::{FinalStatusLevel, StatusLevel};
pub use timeouts::{FlakyResult, LeakTimeoutResult, SlowTimeoutResult};

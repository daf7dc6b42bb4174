//! A run of a plan, by the names of its tests and scripts.
#![tactic(auto)]

mod places;
mod plan_run;
mod session;

pub use plan_run::{KeptTest, PlanRun};
pub use session::{Fate, RecordSession, Session};

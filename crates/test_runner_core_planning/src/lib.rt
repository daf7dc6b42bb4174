//! The plan of a run: which tests it selects of which binaries, with which settings, or why inputs
//! have no plan.
#![tactic(auto)]

mod build;
mod by_priority;
mod filtering;
mod groups;
pub mod laws;
mod plan_error;
mod plan_fault;
mod settled_tests;
mod wanted;

pub use build::BuildPlan;
pub use nextest_config_resolution_load::{LoadFault, LoadKind};
pub use nextest_config_resolution_profiles::ProfileNotFound;
pub use plan_error::PlanError;
pub use plan_fault::PlanFault;

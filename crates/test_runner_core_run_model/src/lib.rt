//! What a run is: the definitions that a session, a report and their laws speak of.
//!
//! `specs/` has the plan as a run sees it, the assignment with the due status, the state of a run
//! with its counters, the step that each event takes, and what whole runs are. All of them speak of
//! places in the plan, counted from 0; ids and names come in above. `laws` has what is proved of
//! them.
#![tactic(auto)]

mod decisions;
mod event;
mod finished;
pub mod laws;
mod mark;
mod run_test;
mod script_order;
mod status;
mod step_refusal;

pub use decisions::{end_refusal, start_refusal, stop_refusal};
pub use event::Event;
pub use finished::Finished;
pub use mark::Mark;
pub use run_test::RunTest;
pub use script_order::script_refusal;
pub use status::exit_status;
pub use step_refusal::StepRefusal;

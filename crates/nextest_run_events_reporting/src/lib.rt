//! The events of a run, as a reporter is told of them: types, without behaviour.
#![tactic(auto)]

mod copies;
mod event;
mod info;
mod kind;
mod slot_assignment;

pub use event::{ReporterEvent, TestEvent};
pub use info::{InfoResponse, SetupScriptInfoResponse};
pub use kind::TestEventKind;
pub use slot_assignment::TestSlotAssignment;

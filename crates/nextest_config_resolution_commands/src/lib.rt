//! The commands of scripts: the names of scripts, how a command is read, and where its program
//! stands.
#![tactic(auto)]

mod command_line;
pub mod laws;
mod reading;
mod script_command;
mod script_id;
mod steps;
mod variables;
mod words;

pub use reading::deserialize_script_command;
pub use script_command::{ScriptCommand, ScriptCommandEnvMap, ScriptCommandRelativeTo};
pub use script_id::ScriptId;
pub use words::split_words;

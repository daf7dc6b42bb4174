//! The inputs of a run: a JSON text that is read as plain records, or refused with the path of the
//! first thing that is missing, ill-typed or not allowed.
#![tactic(auto)]

mod inputs;
mod inputs_error;
pub mod laws;
mod leaves;
mod platform;
mod source;
mod source_word;
mod workspace;

pub use inputs::{Inputs, MAX_INPUTS_LEN};
pub use inputs_error::{InputsError, InputsRefusal};
pub use nextest_config_resolution_sources::{ConfigSource, ConfigSourceOutcome};
pub use platform::{FactRecord, PlatformRecord};

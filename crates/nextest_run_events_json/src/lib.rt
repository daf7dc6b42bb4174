//! The JSON of how an attempt ended, and of errors with their causes, as other programs read and
//! write it.
#![tactic(auto)]

mod errors;
mod form;
mod json_error;
pub mod laws;
mod leaves;
mod results;

pub use form::{JsonForm, RunEvents};
pub use json_error::JsonError;

//! Filtersets that are compiled for a workspace: which texts are accepted, and the filters that
//! they are.
#![tactic(auto)]

mod as_filters;
mod bans;
mod compile;
mod error;
mod faults;
mod filterset;
pub mod laws;
mod leaves;
mod packages;
mod parse_context;
mod questions;
mod shape;

pub use error::{FiltersetError, FiltersetParseErrors};
pub use filterset::Filterset;
pub use parse_context::ParseContext;

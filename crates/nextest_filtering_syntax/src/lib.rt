//! The filterset language: trees as they are parsed and printed, and reading texts as trees, with
//! recovery from faults.
#![tactic(auto)]

mod ahead;
mod closing;
mod copying;
mod deps;
pub mod laws;
mod leaf;
mod name;
mod operators;
mod parser;
mod reading;
mod runtime;
mod text;
mod tree;
mod waiting;
mod whole;

pub use deps::needs_deps;
pub use nextest_filtering_arguments::ParseSingleError;
pub use reading::{ParseError, Reading};
pub use tree::ParsedExpr;
pub use whole::read;

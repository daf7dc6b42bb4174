//! Glob patterns of a filterset language: their tokens, and exactly which texts are globs and what
//! they match.
#![tactic(auto)]

mod alternatives;
mod character;
mod class;
mod construct_error;
mod edges;
mod fitting;
mod glob;
pub mod laws;
mod matcher;
mod matching;
mod places;
mod reading;
mod scratch;
mod token;
mod walk;
mod words;

pub use construct_error::GlobConstructError;
pub use glob::GenericGlob;
pub use matcher::GlobMatcher;
pub use token::{ClassRange, GlobToken};

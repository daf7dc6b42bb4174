//! Platform specs, which tell builds apart, and what is known of a platform.
#![tactic(auto)]

mod condition;
mod fact;
pub mod laws;
mod opened;
mod outcomes;
mod parser;
mod part;
mod platform_spec;
mod platform_spec_error;
mod reading;
mod span;
mod stop;

pub use fact::{Fact, PlatformFacts, PlatformFactsError};
pub use platform_spec::PlatformSpec;
pub use platform_spec_error::PlatformSpecError;

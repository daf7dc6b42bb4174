//! What a configuration is generic over: filters, by which it tells tests apart, and platform
//! specs, by which it tells builds apart.
#![tactic(auto)]

mod filter_error;
mod filters;
mod platform_specs;
mod spec_error;

pub use filter_error::FilterError;
pub use filters::Filters;
pub use platform_specs::Specs;
pub use spec_error::SpecError;

//! Which tests a run selects: the binaries on which each of the filters in force can hold are asked
//! for their tests, and all of them are tried on each.
#![tactic(auto)]

mod distinct;
pub mod laws;
mod listing;
mod listing_error;
mod listing_fault;
mod names;
mod query;
mod selection;

pub use listing::select;
pub use listing_error::ListingError;
pub use listing_fault::ListingFault;
pub use query::query_of;
pub use selection::{SelectedTests, Selection};

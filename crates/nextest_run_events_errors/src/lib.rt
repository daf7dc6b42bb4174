//! What went wrong with an attempt of a test or a setup script, collected: that it could not be
//! started, what went wrong around its process, that it was ended, and the part of its output that
//! tells of its error.
#![tactic(auto)]

mod described;
mod list;
mod unit_error;

pub use described::{DescribedError, UnitAbortDescription};
pub use list::{DescribedErrorList, DescribedErrors};
pub use unit_error::UnitErrorDescription;

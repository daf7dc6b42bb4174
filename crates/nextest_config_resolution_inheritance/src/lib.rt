//! Which profiles inherit from which: whether all of them may, and the chain of each.
//!
//! Each profile of a configuration has a name and may set one parent. Its chain is the profile, its
//! parents one after another, and `default` at the end. Profiles are accepted if none with a
//! reserved name sets a parent, each parent is one of them, and each chain comes to an end.
#![tactic(auto)]

mod chain;
mod check;
mod endless;
mod inheritance_error;
mod inheritance_fault;
mod inherits;
pub mod laws;
mod places;

pub use chain::chain_of;
pub use check::check_inheritance;
pub use inheritance_error::InheritanceError;
pub use inheritance_fault::InheritanceFault;
pub use inherits::Inherits;

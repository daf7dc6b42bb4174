//! The arguments of predicates: texts, matchers, platforms, as they are read, and why they are
//! refused.
#![tactic(auto)]

mod ban;
mod cursor;
mod error;
mod faults;
mod matchers;
mod platforms;
mod stop;
mod subject;
mod text;

pub use ban::{BannedPredicateReason, FiltersetKind};
pub use cursor::{begins_blank, behind, is_blank, skip_blanks, trim_blanks_end};
pub use error::ParseSingleError;
pub use faults::Faults;
pub use matchers::matcher;
pub use platforms::platform;
pub use stop::Stop;
pub use subject::Subject;
pub use text::{TextArgument, text_argument};

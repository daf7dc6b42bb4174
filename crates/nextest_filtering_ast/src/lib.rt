//! What trees of the filterset language are made of: operators, leaves and matchers as they are
//! written, and how they print; and the grammar of trees.
#![tactic(auto)]

mod copying;
mod leaf;
mod matcher;
mod matching;
mod operators;
mod pattern;
mod printing;
mod runtime;

pub use leaf::{BuildPlatform, ParsedLeaf, SourceSpan};
pub use matcher::NameMatcher;
pub use matching::NameMatching;
pub use operators::{AndOperator, DifferenceOperator, Joint, NotOperator, OrOperator};
pub use pattern::{Pattern, PatternError, PatternMatcher};

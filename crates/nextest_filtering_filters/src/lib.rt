//! Filters that are compiled: what they are on binaries and on tests.
#![tactic(auto)]

mod asked;
mod builder;
mod compiled;
mod context;
mod evaluator;
mod formula;
mod group_lookup;
mod known_groups;
pub mod laws;
mod leaf;
mod matches;
mod part;
mod query;
mod questions;
mod readable;
mod step;
mod values;

pub use builder::FormulaBuilder;
pub use compiled::CompiledExpr;
pub use context::EvalContext;
pub use evaluator::BinaryEvaluator;
pub use formula::Formula;
pub use group_lookup::GroupLookup;
pub use known_groups::KnownGroups;
pub use leaf::FiltersetLeaf;
pub use query::{BinaryQuery, TestQuery};
pub use step::FormulaStep;
pub use values::Values;

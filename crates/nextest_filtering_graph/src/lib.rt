//! Which packages of a workspace reach which by the links between them.
#![tactic(auto)]

mod bits;
mod closing;
mod graph;
mod graph_error;
mod graph_fault;
mod indexing;
mod ordering;
mod reachability;
mod searching;

pub use graph::PackageGraph;
pub use graph_error::GraphError;
pub use graph_fault::GraphFault;
pub use reachability::Reachability;

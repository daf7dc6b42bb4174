// Why packages and links weren't taken for a graph.
use crate::graph_fault::GraphFault;
use std::alloc::{AllocError, AllocFailed};
use thiserror::Error;

/// Why packages and links are no graph, or why that isn't known.
#[derive(Clone, Copy, Debug, PartialEq, Eq, Hash, Error)]
pub enum GraphError {
    /// They are refused.
    #[error(transparent)]
    Refused(GraphFault),
    /// There was no memory for it, which says nothing of them.
    #[error("out of memory")]
    OutOfMemory,
}

impl From<AllocError> for GraphError {
    ghost use Rattle.std.specs.Prelude.{◌≡◌};
    ghost use Rattle.nextest_filtering_graph.specs.declared.graph_error.GraphError.TheVariants.{OutOfMemory};

    ghost from_gives = { λ _ error. error ≡ OutOfMemory };

    fn from(_error: AllocError) -> GraphError {
        GraphError::OutOfMemory
    }
}

impl<T: Drop> From<AllocFailed<T>> for GraphError {
    ghost use Rattle.std.specs.Prelude.{◌≡◌};
    ghost use Rattle.nextest_filtering_graph.specs.declared.graph_error.GraphError.TheVariants.{OutOfMemory};

    ghost from_gives = { λ _ error. error ≡ OutOfMemory };

    fn from(_error: AllocFailed<T>) -> GraphError {
        GraphError::OutOfMemory
    }
}

// Why a record wasn't taken for a workspace.
use crate::workspace_fault::WorkspaceFault;
use std::alloc::{AllocError, AllocFailed};
use thiserror::Error;

/// Why a record is no workspace, or why that isn't known.
#[derive(Clone, Copy, Debug, PartialEq, Eq, Hash, Error)]
pub enum WorkspaceError {
    /// It is refused.
    #[error(transparent)]
    Refused(WorkspaceFault),
    /// There was no memory for the check, which says nothing of the record.
    #[error("out of memory")]
    OutOfMemory,
}

impl From<AllocError> for WorkspaceError {
    ghost use Rattle.std.specs.Prelude.{◌≡◌};
    ghost use Rattle.test_runner_core_workspace.specs.declared.workspace_error.WorkspaceError.TheVariants.{OutOfMemory};

    ghost from_gives = { λ _ error. error ≡ OutOfMemory };

    fn from(_error: AllocError) -> WorkspaceError {
        WorkspaceError::OutOfMemory
    }
}

impl<T: Drop> From<AllocFailed<T>> for WorkspaceError {
    ghost use Rattle.std.specs.Prelude.{◌≡◌};
    ghost use Rattle.test_runner_core_workspace.specs.declared.workspace_error.WorkspaceError.TheVariants.{OutOfMemory};

    ghost from_gives = { λ _ error. error ≡ OutOfMemory };

    fn from(_error: AllocFailed<T>) -> WorkspaceError {
        WorkspaceError::OutOfMemory
    }
}

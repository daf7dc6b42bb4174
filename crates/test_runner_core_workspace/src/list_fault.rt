// Why a binary's tests weren't listed.
use nextest_text::Text;
use std::alloc::{AllocError, AllocFailed};
use thiserror::Error;

/// Why a binary's tests weren't listed.
#[derive(Clone, Debug, PartialEq, Eq, Drop, Error)]
pub enum ListFault {
    /// The binary can't list them, for this cause.
    #[error("{0}")]
    Cause(Text),
    /// There was no memory for the list, which says nothing of the binary.
    #[error("out of memory")]
    OutOfMemory,
}

impl From<AllocError> for ListFault {
    ghost use Rattle.std.specs.Prelude.{◌≡◌};
    ghost use Rattle.test_runner_core_workspace.specs.declared.list_fault.ListFault.TheVariants.{OutOfMemory};

    ghost from_gives = { λ _ fault. fault ≡ OutOfMemory };

    fn from(_error: AllocError) -> ListFault {
        ListFault::OutOfMemory
    }
}

impl<T: Drop> From<AllocFailed<T>> for ListFault {
    ghost use Rattle.std.specs.Prelude.{◌≡◌};
    ghost use Rattle.test_runner_core_workspace.specs.declared.list_fault.ListFault.TheVariants.{OutOfMemory};

    ghost from_gives = { λ _ fault. fault ≡ OutOfMemory };

    fn from(_error: AllocFailed<T>) -> ListFault {
        ListFault::OutOfMemory
    }
}

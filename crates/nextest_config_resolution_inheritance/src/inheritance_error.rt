// Why profiles weren't accepted.
use crate::inheritance_fault::InheritanceFault;
use std::alloc::{AllocError, AllocFailed};
use thiserror::Error;

/// Why profiles weren't accepted.
#[derive(Debug, PartialEq, Eq, Drop, Error)]
pub enum InheritanceError {
    /// They are refused.
    #[error(transparent)]
    Refused(InheritanceFault),
    /// There was no memory, which says nothing of the profiles.
    #[error("out of memory")]
    OutOfMemory,
}

impl From<AllocError> for InheritanceError {
    ghost use Rattle.std.specs.Prelude.{◌≡◌};
    ghost use Rattle.nextest_config_resolution_inheritance.specs.declared.inheritance_error.InheritanceError.TheVariants.{OutOfMemory};

    ghost from_gives = { λ _ error. error ≡ OutOfMemory };

    fn from(_error: AllocError) -> InheritanceError {
        InheritanceError::OutOfMemory
    }
}

impl<T: Drop> From<AllocFailed<T>> for InheritanceError {
    ghost use Rattle.std.specs.Prelude.{◌≡◌};
    ghost use Rattle.nextest_config_resolution_inheritance.specs.declared.inheritance_error.InheritanceError.TheVariants.{OutOfMemory};

    ghost from_gives = { λ _ error. error ≡ OutOfMemory };

    fn from(_error: AllocFailed<T>) -> InheritanceError {
        InheritanceError::OutOfMemory
    }
}

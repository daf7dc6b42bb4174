// Why a configuration wasn't loaded.
use crate::load_fault::LoadFault;
use std::alloc::{AllocError, AllocFailed};
use thiserror::Error;

/// Why a configuration wasn't loaded.
#[derive(Debug, PartialEq, Eq, Drop, Error)]
pub enum LoadError {
    /// It is refused.
    #[error(transparent)]
    Refused(LoadFault),
    /// There was no memory, which says nothing of the configuration.
    #[error("out of memory")]
    OutOfMemory,
}

impl From<AllocError> for LoadError {
    ghost use Rattle.std.specs.Prelude.{◌≡◌};
    ghost use Rattle.nextest_config_resolution_load.specs.declared.load_error.LoadError.TheVariants.{OutOfMemory};

    ghost from_gives = { λ _ error. error ≡ OutOfMemory };

    fn from(_error: AllocError) -> LoadError {
        LoadError::OutOfMemory
    }
}

impl<T: Drop> From<AllocFailed<T>> for LoadError {
    ghost use Rattle.std.specs.Prelude.{◌≡◌};
    ghost use Rattle.nextest_config_resolution_load.specs.declared.load_error.LoadError.TheVariants.{OutOfMemory};

    ghost from_gives = { λ _ error. error ≡ OutOfMemory };

    fn from(_error: AllocFailed<T>) -> LoadError {
        LoadError::OutOfMemory
    }
}

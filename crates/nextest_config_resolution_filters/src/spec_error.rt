// Why a platform spec isn't read.
use std::alloc::{AllocError, AllocFailed};
use thiserror::Error;

/// Why a platform spec isn't read.
#[derive(Debug, Drop, Error)]
pub enum SpecError {
    /// The text is no platform spec.
    #[error("the text is no platform spec")]
    Refused,
    /// There is no memory, which says nothing of the text.
    #[error("out of memory")]
    OutOfMemory,
}

impl From<AllocError> for SpecError {
    ghost use Rattle.std.specs.Prelude.{◌≡◌};
    ghost use Rattle.nextest_config_resolution_filters.specs.declared.spec_error.SpecError.TheVariants.{OutOfMemory};

    ghost from_gives = { λ _ error. error ≡ OutOfMemory };

    fn from(_: AllocError) -> SpecError {
        SpecError::OutOfMemory
    }
}

impl<T: Drop> From<AllocFailed<T>> for SpecError {
    ghost use Rattle.std.specs.Prelude.{◌≡◌};
    ghost use Rattle.nextest_config_resolution_filters.specs.declared.spec_error.SpecError.TheVariants.{OutOfMemory};

    ghost from_gives = { λ _ error. error ≡ OutOfMemory };

    fn from(_: AllocFailed<T>) -> SpecError {
        SpecError::OutOfMemory
    }
}

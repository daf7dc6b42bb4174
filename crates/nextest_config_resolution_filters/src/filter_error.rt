// Why a filter isn't read.
use std::alloc::{AllocError, AllocFailed};
use thiserror::Error;

/// Why a filter isn't read.
#[derive(Debug, Drop, Error)]
pub enum FilterError {
    /// The text is no filter here.
    #[error("the text is no filter here")]
    Refused,
    /// There is no memory, which says nothing of the text.
    #[error("out of memory")]
    OutOfMemory,
}

impl From<AllocError> for FilterError {
    ghost use Rattle.std.specs.Prelude.{◌≡◌};
    ghost use Rattle.nextest_config_resolution_filters.specs.declared.filter_error.FilterError.TheVariants.{OutOfMemory};

    ghost from_gives = { λ _ error. error ≡ OutOfMemory };

    fn from(_: AllocError) -> FilterError {
        FilterError::OutOfMemory
    }
}

impl<T: Drop> From<AllocFailed<T>> for FilterError {
    ghost use Rattle.std.specs.Prelude.{◌≡◌};
    ghost use Rattle.nextest_config_resolution_filters.specs.declared.filter_error.FilterError.TheVariants.{OutOfMemory};

    ghost from_gives = { λ _ error. error ≡ OutOfMemory };

    fn from(_: AllocFailed<T>) -> FilterError {
        FilterError::OutOfMemory
    }
}

// Why a text is no glob.
use std::alloc::{AllocError, AllocFailed};
use thiserror::Error;

/// Why a glob can't be made of a text.
#[derive(Clone, Copy, Debug, PartialEq, Eq, Hash, Error)]
pub enum GlobConstructError {
    /// The text is no glob.
    #[error("the text is no glob")]
    InvalidGlob,
    /// There was no memory for its tokens.
    #[error("out of memory")]
    OutOfMemory,
}

impl From<AllocError> for GlobConstructError {
    ghost use Rattle.std.specs.Prelude.{◌≡◌};
    ghost use Rattle.nextest_filtering_globs.specs.declared.construct_error.GlobConstructError.TheVariants.{OutOfMemory};

    ghost from_gives = { λ _ error. error ≡ OutOfMemory };

    fn from(_error: AllocError) -> GlobConstructError {
        GlobConstructError::OutOfMemory
    }
}

impl<T: Drop> From<AllocFailed<T>> for GlobConstructError {
    ghost use Rattle.std.specs.Prelude.{◌≡◌};
    ghost use Rattle.nextest_filtering_globs.specs.declared.construct_error.GlobConstructError.TheVariants.{OutOfMemory};

    ghost from_gives = { λ _ error. error ≡ OutOfMemory };

    fn from(_error: AllocFailed<T>) -> GlobConstructError {
        GlobConstructError::OutOfMemory
    }
}

// Why a line is no event.
use std::alloc::{AllocError, AllocFailed};
use thiserror::Error;

/// Why a line of a log can't be read.
#[derive(Clone, Copy, Debug, PartialEq, Eq, Hash, Error)]
pub enum ParseLineError {
    /// It isn't UTF-8.
    #[error("the line isn't UTF-8")]
    NotUtf8,
    /// It isn't empty and spells no event.
    #[error("the line spells no event")]
    BadLine,
    /// There was no memory for its texts.
    #[error("out of memory")]
    OutOfMemory,
}

impl From<AllocError> for ParseLineError {
    ghost use Rattle.std.specs.Prelude.{◌≡◌};
    ghost use Rattle.test_runner_core_line_syntax.specs.declared.parse_line_error.ParseLineError.TheVariants.{OutOfMemory};

    ghost from_gives = { λ _ error. error ≡ OutOfMemory };

    fn from(_error: AllocError) -> ParseLineError {
        ParseLineError::OutOfMemory
    }
}

impl<T: Drop> From<AllocFailed<T>> for ParseLineError {
    ghost use Rattle.std.specs.Prelude.{◌≡◌};
    ghost use Rattle.test_runner_core_line_syntax.specs.declared.parse_line_error.ParseLineError.TheVariants.{OutOfMemory};

    ghost from_gives = { λ _ error. error ≡ OutOfMemory };

    fn from(_error: AllocFailed<T>) -> ParseLineError {
        ParseLineError::OutOfMemory
    }
}

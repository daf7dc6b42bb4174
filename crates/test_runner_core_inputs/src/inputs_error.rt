// Why bytes are no inputs.
use nextest_text::Text;
use std::alloc::{AllocError, AllocFailed};
use thiserror::Error;

/// Why bytes are no inputs, or why that isn't known.
#[derive(Clone, Debug, PartialEq, Eq, Drop, Error)]
pub enum InputsError {
    /// They are refused.
    #[error(transparent)]
    Refused(InputsRefusal),
    /// There was no memory, which says nothing of the bytes.
    #[error("out of memory")]
    OutOfMemory,
}

/// Why bytes are no inputs.
#[derive(Clone, Debug, PartialEq, Eq, Drop, Error)]
pub enum InputsRefusal {
    /// They are no JSON in UTF-8, or more than 16,777,216.
    #[error("the inputs are no JSON, or too long")]
    Syntax,
    /// The first thing, in the written order, that is missing, ill-typed or not allowed: its path,
    /// which is names and list positions from 0, joined by dots.
    #[error("the inputs have at {0} what is missing, ill-typed or not allowed")]
    Field(Text),
}

impl From<AllocError> for InputsError {
    ghost use Rattle.std.specs.Prelude.{◌≡◌};
    ghost use Rattle.test_runner_core_inputs.specs.declared.inputs_error.InputsError.TheVariants.{OutOfMemory};

    ghost from_gives = { λ _ error. error ≡ OutOfMemory };

    fn from(_error: AllocError) -> InputsError {
        InputsError::OutOfMemory
    }
}

impl<T: Drop> From<AllocFailed<T>> for InputsError {
    ghost use Rattle.std.specs.Prelude.{◌≡◌};
    ghost use Rattle.test_runner_core_inputs.specs.declared.inputs_error.InputsError.TheVariants.{OutOfMemory};

    ghost from_gives = { λ _ error. error ≡ OutOfMemory };

    fn from(_error: AllocFailed<T>) -> InputsError {
        InputsError::OutOfMemory
    }
}

// Why a value wasn't read.
use crate::bad_value::BadValue;
use std::alloc::{AllocError, AllocFailed};
use thiserror::Error;

/// Why a value wasn't read.
#[derive(Debug, PartialEq, Eq, Drop, Error)]
pub enum ValueError {
    /// It is refused.
    #[error(transparent)]
    Refused(BadValue),
    /// There was no memory, which says nothing of the value.
    #[error("out of memory")]
    OutOfMemory,
}

impl From<AllocError> for ValueError {
    ghost use Rattle.std.specs.Prelude.{◌≡◌};
    ghost use Rattle.nextest_config_elements_toml.specs.declared.value_error.ValueError.TheVariants.{OutOfMemory};

    ghost from_gives = { λ _ error. error ≡ OutOfMemory };

    fn from(_error: AllocError) -> ValueError {
        ValueError::OutOfMemory
    }
}

impl<T: Drop> From<AllocFailed<T>> for ValueError {
    ghost use Rattle.std.specs.Prelude.{◌≡◌};
    ghost use Rattle.nextest_config_elements_toml.specs.declared.value_error.ValueError.TheVariants.{OutOfMemory};

    ghost from_gives = { λ _ error. error ≡ OutOfMemory };

    fn from(_error: AllocFailed<T>) -> ValueError {
        ValueError::OutOfMemory
    }
}

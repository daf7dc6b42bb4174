// Why a value of JSON isn't read.

use std::alloc::AllocError;
use thiserror::Error;

/// Why a value of JSON isn't read.
#[derive(Clone, Copy, Debug, PartialEq, Eq, Error)]
pub enum JsonError {
    /// It hasn't the form that is asked for.
    #[error("the JSON has another form")]
    BadJson,
    /// There is no memory for what was read.
    #[error("out of memory")]
    OutOfMemory,
}

impl From<AllocError> for JsonError {
    ghost use Rattle.std.specs.Prelude.{◌≡◌};
    ghost use Rattle.nextest_run_events_json.specs.declared.json_error.JsonError.TheVariants.{OutOfMemory};

    ghost from_gives = { λ _ error. error ≡ OutOfMemory };

    fn from(_error: AllocError) -> JsonError {
        Self::OutOfMemory
    }
}

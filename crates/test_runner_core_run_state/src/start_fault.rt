// Why an attempt didn't start.
use std::alloc::{AllocError, AllocFailed};
use test_runner_core_run_model::StepRefusal;
use thiserror::Error;

/// Why an attempt didn't start.
#[derive(Clone, Copy, Debug, PartialEq, Eq, Hash, Error)]
pub enum StartFault {
    /// It can't start now.
    #[error("{0}")]
    Refused(StepRefusal),
    /// It could start, but there was no memory for the attempt's record.
    #[error("out of memory")]
    OutOfMemory,
}

impl From<AllocError> for StartFault {
    ghost use Rattle.std.specs.Prelude.{◌≡◌};
    ghost use Rattle.test_runner_core_run_state.specs.declared.start_fault.StartFault.TheVariants.{OutOfMemory};

    ghost from_gives = { λ _ error. error ≡ OutOfMemory };

    fn from(_error: AllocError) -> StartFault {
        StartFault::OutOfMemory
    }
}

impl<T: Drop> From<AllocFailed<T>> for StartFault {
    ghost use Rattle.std.specs.Prelude.{◌≡◌};
    ghost use Rattle.test_runner_core_run_state.specs.declared.start_fault.StartFault.TheVariants.{OutOfMemory};

    ghost from_gives = { λ _ error. error ≡ OutOfMemory };

    fn from(_error: AllocFailed<T>) -> StartFault {
        StartFault::OutOfMemory
    }
}

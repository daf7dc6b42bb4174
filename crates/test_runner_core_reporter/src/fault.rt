// Why something can't be reported.
use std::alloc::{AllocError, AllocFailed};
use std::io;
use thiserror::Error;

/// Why something can't be reported. What the report took until then is a prefix of it.
#[derive(Debug, Drop, Error)]
pub enum ReportFault {
    /// There was no memory.
    #[error("out of memory")]
    Memory,
    /// The report's writer failed, or took none of some bytes. It is not asked again.
    #[error("the report can't be written: {0}")]
    Write(io::Error),
}

impl From<AllocError> for ReportFault {
    ghost use Rattle.std.specs.Prelude.{◌≡◌};
    ghost use Rattle.test_runner_core_reporter.specs.declared.fault.ReportFault.TheVariants.{Memory};

    ghost from_gives = { λ _ fault. fault ≡ Memory };

    fn from(_error: AllocError) -> ReportFault {
        ReportFault::Memory
    }
}

impl<T: Drop> From<AllocFailed<T>> for ReportFault {
    ghost use Rattle.std.specs.Prelude.{◌≡◌};
    ghost use Rattle.test_runner_core_reporter.specs.declared.fault.ReportFault.TheVariants.{Memory};

    ghost from_gives = { λ _ fault. fault ≡ Memory };

    fn from(_error: AllocFailed<T>) -> ReportFault {
        ReportFault::Memory
    }
}

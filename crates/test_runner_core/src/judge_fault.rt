// Why a run can't be judged to its end.
ghost use Rattle.std.specs.Prelude.{◌≡◌};

use std::alloc::{AllocError, AllocFailed};
use std::io;
use test_runner_core_log_reader::LogFault;
use test_runner_core_reporter::ReportFault;
use thiserror::Error;

/// Why a run can't be judged to its end. What the report took until then is a prefix of it.
#[derive(Debug, Drop, Error)]
pub enum JudgeFault {
    /// There was no memory.
    #[error("out of memory")]
    Memory,
    /// The reader failed. It is not asked again.
    #[error("the log can't be read: {0}")]
    Read(io::Error),
    /// The report's writer failed, or took none of some bytes. It is not asked again.
    #[error("the report can't be written: {0}")]
    Write(io::Error),
}

impl From<LogFault> for JudgeFault {
    ghost use Rattle.std.specs.Prelude.{◌≡◌};
    ghost use Rattle.test_runner_core.specs.Faults.{fault_of};

    ghost from_gives = { λ fault gives. gives ≡ fault_of fault };

    fn from(fault: LogFault) -> JudgeFault {
        match fault {
            LogFault::Memory => JudgeFault::Memory,
            LogFault::Read(cause) => JudgeFault::Read(cause),
        }
    }
}

impl From<ReportFault> for JudgeFault {
    ghost use Rattle.std.specs.Prelude.{◌≡◌};
    ghost use Rattle.test_runner_core.specs.Faults.{fault_of_reporting};

    ghost from_gives = { λ fault gives. gives ≡ fault_of_reporting fault };

    fn from(fault: ReportFault) -> JudgeFault {
        match fault {
            ReportFault::Memory => JudgeFault::Memory,
            ReportFault::Write(cause) => JudgeFault::Write(cause),
        }
    }
}

impl From<AllocError> for JudgeFault {
    ghost use Rattle.std.specs.Prelude.{◌≡◌};
    ghost use Rattle.test_runner_core.specs.declared.judge_fault.JudgeFault.TheVariants.{Memory};

    ghost from_gives = { λ _ fault. fault ≡ Memory };

    fn from(_error: AllocError) -> JudgeFault {
        JudgeFault::Memory
    }
}

impl<T: Drop> From<AllocFailed<T>> for JudgeFault {
    ghost use Rattle.std.specs.Prelude.{◌≡◌};
    ghost use Rattle.test_runner_core.specs.declared.judge_fault.JudgeFault.TheVariants.{Memory};

    ghost from_gives = { λ _ fault. fault ≡ Memory };

    fn from(_error: AllocFailed<T>) -> JudgeFault {
        JudgeFault::Memory
    }
}

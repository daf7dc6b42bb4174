// What ends the lines of a log before its end.
ghost use Rattle.std.specs.Prelude.{◌≡◌, ◌+◌, ◌<◌, ◌^◌};
ghost use Rattle.test_runner_core_log_reader.specs.Items.{line_fault};

use super::limits::{LINE_LIMIT, LOG_LIMIT};
use std::alloc::AllocError;
use std::io;
use thiserror::Error;

/// Why there is no further line in a log.
#[derive(Clone, Copy, Debug, PartialEq, Eq, Hash, Error)]
pub enum LineFault {
    /// The line has more than `LINE_LIMIT` bytes.
    #[error("the line is too long")]
    LineTooLong,
    /// The log has more than `LOG_LIMIT` bytes, and the first past them is in the line.
    #[error("the log is too long")]
    LogTooLong,
    /// The log ends within the line.
    #[error("the log ends within the line")]
    NoLineEnd,
}

/// Why a log can't be read on.
#[derive(Debug, Drop, Error)]
pub enum LogFault {
    /// The reader failed. It is not asked again.
    #[error("the log can't be read: {0}")]
    Read(io::Error),
    /// There was no memory for the line.
    #[error("out of memory")]
    Memory,
}

impl From<io::Error> for LogFault {
    ghost use Rattle.std.specs.Prelude.{◌≡◌};
    ghost use Rattle.test_runner_core_log_reader.specs.declared.fault.LogFault.TheVariants.{Read};

    ghost from_gives = { λ cause fault. fault ≡ Read cause };

    fn from(cause: io::Error) -> LogFault {
        LogFault::Read(cause)
    }
}

impl From<AllocError> for LogFault {
    ghost use Rattle.std.specs.Prelude.{◌≡◌};
    ghost use Rattle.test_runner_core_log_reader.specs.declared.fault.LogFault.TheVariants.{Memory};

    ghost from_gives = { λ _ fault. fault ≡ Memory };

    fn from(_error: AllocError) -> LogFault {
        LogFault::Memory
    }
}

// What is wrong with a line of so many bytes behind so many of the log, which a line feed ends or
// the log's end.
pub(super) fn fault_of(before: usize, length: usize, ended: bool) -> Option<LineFault>
    requires { before + length < 2 ^ 63 }
    ensures { result ≡ line_fault before length ended }
{
    if LINE_LIMIT < length && before + LINE_LIMIT <= LOG_LIMIT {
        return Some(LineFault::LineTooLong);
    }
    if LOG_LIMIT < before + length + usize::from(ended) {
        return Some(LineFault::LogTooLong);
    }
    if ended || length == 0 {
        return None;
    }
    Some(LineFault::NoLineEnd)
}

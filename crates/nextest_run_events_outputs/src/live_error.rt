// What goes wrong around a child process that runs, as a runner gives it.
ghost use Rattle.std.specs.Prelude.{◌≡◌, IfOk};
ghost use Rattle.nextest_run_events_outputs.specs.Live.{described_start, described_error};

use super::child_error::{ChildErrorDescription, ChildStartErrorDescription};
use super::serializable_error::{ErrorChain, SerializableError};
use std::alloc::{AllocError, Global};

/// Why a child process could not be started.
#[derive(Clone, Debug, Drop, PartialEq, Eq)]
pub enum ChildStartError {
    /// A setup script got no temporary path, for this reason.
    TempPath(ErrorChain),
    /// The process could not be spawned, for this reason.
    Spawn(ErrorChain),
}

/// What went wrong with the streams of a child process, or with the wait for its end.
#[derive(Clone, Debug, Drop, PartialEq, Eq)]
pub enum ChildFdError {
    /// Its standard output could not be read, for this reason.
    ReadStdout(ErrorChain),
    /// Its standard error could not be read, for this reason.
    ReadStderr(ErrorChain),
    /// Its output, both streams in one, could not be read, for this reason.
    ReadCombined(ErrorChain),
    /// Its end could not be waited for, for this reason.
    Wait(ErrorChain),
}

/// What went wrong while a child process ran, or with what it left.
#[derive(Clone, Debug, Drop, PartialEq, Eq)]
pub enum ChildError {
    /// With its streams, or with the wait for its end.
    Fd(ChildFdError),
    /// What a setup script left could not be read, for this reason.
    SetupScriptOutput(ErrorChain),
}

impl ChildStartErrorDescription {
    /// The same error, its texts copied. It fails only on allocation.
    pub fn from_error(alloc: Global, error: &ChildStartError) -> Result<Self, AllocError>
        ensures { IfOk result (λ told. told ≡ described_start error.now) }
    {
        match error {
            ChildStartError::TempPath(chain) => Ok(ChildStartErrorDescription::TempPath {
                source: SerializableError::new(alloc, chain)?,
            }),
            ChildStartError::Spawn(chain) => Ok(ChildStartErrorDescription::Spawn {
                source: SerializableError::new(alloc, chain)?,
            }),
        }
    }
}

impl ChildErrorDescription {
    /// The same error, its texts copied. It fails only on allocation.
    pub fn from_error(alloc: Global, error: &ChildError) -> Result<Self, AllocError>
        ensures { IfOk result (λ told. told ≡ described_error error.now) }
    {
        match error {
            ChildError::Fd(ChildFdError::ReadStdout(chain)) => {
                Ok(ChildErrorDescription::ReadStdout {
                    source: SerializableError::new(alloc, chain)?,
                })
            }
            ChildError::Fd(ChildFdError::ReadStderr(chain)) => {
                Ok(ChildErrorDescription::ReadStderr {
                    source: SerializableError::new(alloc, chain)?,
                })
            }
            ChildError::Fd(ChildFdError::ReadCombined(chain)) => {
                Ok(ChildErrorDescription::ReadCombined {
                    source: SerializableError::new(alloc, chain)?,
                })
            }
            ChildError::Fd(ChildFdError::Wait(chain)) => Ok(ChildErrorDescription::Wait {
                source: SerializableError::new(alloc, chain)?,
            }),
            ChildError::SetupScriptOutput(chain) => {
                Ok(ChildErrorDescription::SetupScriptOutput {
                    source: SerializableError::new(alloc, chain)?,
                })
            }
        }
    }
}

// What went wrong around a child process.
ghost use Rattle.std.specs.Prelude.{◌≡◌};
ghost use Rattle.nextest_run_events_outputs.specs.ChildError.{start_source_of, source_of};

use super::serializable_error::SerializableError;
use thiserror::Error;

/// Why a child process could not be started.
#[derive(Clone, Debug, PartialEq, Eq, Error)]
pub enum ChildStartErrorDescription {
    /// A setup script got no temporary path.
    #[error("error creating temporary path for setup script")]
    TempPath {
        /// Why.
        source: SerializableError,
    },
    /// The process could not be spawned.
    #[error("error spawning child process")]
    Spawn {
        /// Why.
        source: SerializableError,
    },
}

// One call drops it, whoever holds it.
impl Drop for ChildStartErrorDescription {
    fn drop(self) {
        match self {
            Self::TempPath { source: _ } => {}
            Self::Spawn { source: _ } => {}
        }
    }
}

impl ChildStartErrorDescription {
    /// Why it went wrong.
    pub fn source(&self) -> &SerializableError
        ensures { result.now ≡ start_source_of self.now }
    {
        match self {
            ChildStartErrorDescription::TempPath { source } => source,
            ChildStartErrorDescription::Spawn { source } => source,
        }
    }
}

/// What went wrong while a child process ran, or with what it left.
#[derive(Clone, Debug, PartialEq, Eq, Error)]
pub enum ChildErrorDescription {
    /// Its standard output could not be read.
    #[error("error reading standard output")]
    ReadStdout {
        /// Why.
        source: SerializableError,
    },
    /// Its standard error could not be read.
    #[error("error reading standard error")]
    ReadStderr {
        /// Why.
        source: SerializableError,
    },
    /// Its output, both streams in one, could not be read.
    #[error("error reading combined stream")]
    ReadCombined {
        /// Why.
        source: SerializableError,
    },
    /// Its end could not be waited for.
    #[error("error waiting for child process to exit")]
    Wait {
        /// Why.
        source: SerializableError,
    },
    /// What a setup script left could not be read.
    #[error("error reading setup script output")]
    SetupScriptOutput {
        /// Why.
        source: SerializableError,
    },
}

// One call drops it, whoever holds it.
impl Drop for ChildErrorDescription {
    fn drop(self) {
        match self {
            Self::ReadStdout { source: _ } => {}
            Self::ReadStderr { source: _ } => {}
            Self::ReadCombined { source: _ } => {}
            Self::Wait { source: _ } => {}
            Self::SetupScriptOutput { source: _ } => {}
        }
    }
}

impl ChildErrorDescription {
    /// Why it went wrong.
    pub fn source(&self) -> &SerializableError
        ensures { result.now ≡ source_of self.now }
    {
        match self {
            ChildErrorDescription::ReadStdout { source } => source,
            ChildErrorDescription::ReadStderr { source } => source,
            ChildErrorDescription::ReadCombined { source } => source,
            ChildErrorDescription::Wait { source } => source,
            ChildErrorDescription::SetupScriptOutput { source } => source,
        }
    }
}

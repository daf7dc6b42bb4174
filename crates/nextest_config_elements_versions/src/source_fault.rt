// Why a source is refused.
use nextest_config_elements_toml::BadValue;
use nextest_text::Text;
use std::alloc::{AllocError, AllocFailed};
use thiserror::Error;

/// What is wrong in a source.
#[derive(Debug, PartialEq, Eq, Error)]
pub enum VersionSourceReason {
    /// Its text is no TOML, with the reader's message.
    #[error("the text is no TOML: {0}")]
    Toml(Text),
    /// A value that is read can't stand at its key.
    #[error("{0}")]
    BadValue(BadValue),
    /// A tool asks for a feature.
    #[error("a tool may ask for no experimental feature")]
    ToolFeatures,
}

// One call drops it, whoever holds it.
impl Drop for VersionSourceReason {
    fn drop(self) {
        match self {
            VersionSourceReason::Toml(_) => {}
            VersionSourceReason::BadValue(_) => {}
            VersionSourceReason::ToolFeatures => {}
        }
    }
}

/// A source that is refused.
#[derive(Debug, PartialEq, Eq, Error)]
#[error("{path}: {reason}")]
pub struct VersionSourceFault {
    /// Its path.
    pub path: Text,
    /// What is wrong in it.
    pub reason: VersionSourceReason,
}

// One call drops it, whoever holds it.
impl Drop for VersionSourceFault {
    fn drop(self) {
        let Self { path: _, reason: _ } = self;
    }
}

/// Why a list of sources wasn't read.
#[derive(Debug, PartialEq, Eq, Drop, Error)]
pub enum VersionOnlyError {
    /// A source is refused, the first of the list.
    #[error(transparent)]
    Refused(VersionSourceFault),
    /// There was no memory, which says nothing of the sources.
    #[error("out of memory")]
    OutOfMemory,
}

impl From<AllocError> for VersionOnlyError {
    ghost use Rattle.std.specs.Prelude.{◌≡◌};
    ghost use Rattle.nextest_config_elements_versions.specs.declared.source_fault.VersionOnlyError.TheVariants.{OutOfMemory};

    ghost from_gives = { λ _ error. error ≡ OutOfMemory };

    fn from(_error: AllocError) -> VersionOnlyError {
        VersionOnlyError::OutOfMemory
    }
}

impl<T: Drop> From<AllocFailed<T>> for VersionOnlyError {
    ghost use Rattle.std.specs.Prelude.{◌≡◌};
    ghost use Rattle.nextest_config_elements_versions.specs.declared.source_fault.VersionOnlyError.TheVariants.{OutOfMemory};

    ghost from_gives = { λ _ error. error ≡ OutOfMemory };

    fn from(_error: AllocFailed<T>) -> VersionOnlyError {
        VersionOnlyError::OutOfMemory
    }
}

// Why inputs don't pass.
use std::alloc::{AllocError, AllocFailed};
use thiserror::Error;

/// Why inputs don't pass, in the order in which the reasons are looked for.
#[derive(Clone, Copy, Debug, PartialEq, Eq, Hash, Error)]
pub enum VersionPassFault {
    /// A source's text is no TOML, a version or feature in it is none, or a tool asks for a
    /// feature.
    #[error("VersionSource")]
    VersionSource,
    /// A version is required that is above the current one.
    #[error("VersionError")]
    VersionError,
    /// A feature is asked for that isn't known.
    #[error("UnknownFeature")]
    UnknownFeature,
}

/// Why inputs don't pass, or why that isn't known.
#[derive(Clone, Copy, Debug, PartialEq, Eq, Hash, Error)]
pub enum VersionPassError {
    /// They are refused.
    #[error(transparent)]
    Refused(VersionPassFault),
    /// There was no memory, which says nothing of the inputs.
    #[error("out of memory")]
    OutOfMemory,
}

impl From<AllocError> for VersionPassError {
    ghost use Rattle.std.specs.Prelude.{◌≡◌};
    ghost use Rattle.test_runner_core_settings.specs.declared.pass_error.VersionPassError.TheVariants.{OutOfMemory};

    ghost from_gives = { λ _ error. error ≡ OutOfMemory };

    fn from(_error: AllocError) -> VersionPassError {
        VersionPassError::OutOfMemory
    }
}

impl<T: Drop> From<AllocFailed<T>> for VersionPassError {
    ghost use Rattle.std.specs.Prelude.{◌≡◌};
    ghost use Rattle.test_runner_core_settings.specs.declared.pass_error.VersionPassError.TheVariants.{OutOfMemory};

    ghost from_gives = { λ _ error. error ≡ OutOfMemory };

    fn from(_error: AllocFailed<T>) -> VersionPassError {
        VersionPassError::OutOfMemory
    }
}

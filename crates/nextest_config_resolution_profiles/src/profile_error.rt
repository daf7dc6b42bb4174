// Why a profile isn't handed out.
use nextest_text::{Listing, Text};
use std::alloc::{AllocError, AllocFailed};
use thiserror::Error;

/// No profile has a name.
#[derive(Clone, Debug, PartialEq, Eq, Error)]
#[error("no profile has the name `{name}`")]
pub struct ProfileNotFound {
    /// The name that was asked for.
    pub name: Text,
    /// The names of all profiles, by their bytes.
    pub known: Listing<Text>,
}

// One call drops it, whoever holds it.
impl Drop for ProfileNotFound {
    fn drop(self) {
        let Self { name: _, known: _ } = self;
    }
}

/// Why a profile isn't handed out.
#[derive(Debug, PartialEq, Eq, Drop, Error)]
pub enum ProfileError {
    /// No profile has that name.
    #[error(transparent)]
    NotFound(ProfileNotFound),
    /// There was no memory, which says nothing of the profiles.
    #[error("out of memory")]
    OutOfMemory,
}

impl From<AllocError> for ProfileError {
    ghost use Rattle.std.specs.Prelude.{◌≡◌};
    ghost use Rattle.nextest_config_resolution_profiles.specs.declared.profile_error.ProfileError.TheVariants.{OutOfMemory};

    ghost from_gives = { λ _ error. error ≡ OutOfMemory };

    fn from(_error: AllocError) -> ProfileError {
        ProfileError::OutOfMemory
    }
}

impl<T: Drop> From<AllocFailed<T>> for ProfileError {
    ghost use Rattle.std.specs.Prelude.{◌≡◌};
    ghost use Rattle.nextest_config_resolution_profiles.specs.declared.profile_error.ProfileError.TheVariants.{OutOfMemory};

    ghost from_gives = { λ _ error. error ≡ OutOfMemory };

    fn from(_error: AllocFailed<T>) -> ProfileError {
        ProfileError::OutOfMemory
    }
}

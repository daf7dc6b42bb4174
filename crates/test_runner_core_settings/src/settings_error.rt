// Why the configuration of inputs sets nothing, or why that isn't known.
use crate::settings_fault::SettingsFault;
use nextest_config_resolution_load::LoadError;
use nextest_config_resolution_profiles::ProfileError;
use std::alloc::{AllocError, AllocFailed};
use test_runner_core_platforms::PlatformFactsError;
use thiserror::Error;

/// Why the configuration of inputs sets nothing, or why that isn't known.
#[derive(Debug, PartialEq, Eq, Drop, Error)]
pub enum SettingsError {
    /// It is refused.
    #[error(transparent)]
    Refused(SettingsFault),
    /// There was no memory, which says nothing of the inputs.
    #[error("out of memory")]
    OutOfMemory,
}

impl From<AllocError> for SettingsError {
    ghost use Rattle.std.specs.Prelude.{◌≡◌};
    ghost use Rattle.test_runner_core_settings.specs.declared.settings_error.SettingsError.TheVariants.{OutOfMemory};

    ghost from_gives = { λ _ error. error ≡ OutOfMemory };

    fn from(_error: AllocError) -> SettingsError {
        SettingsError::OutOfMemory
    }
}

impl<T: Drop> From<AllocFailed<T>> for SettingsError {
    ghost use Rattle.std.specs.Prelude.{◌≡◌};
    ghost use Rattle.test_runner_core_settings.specs.declared.settings_error.SettingsError.TheVariants.{OutOfMemory};

    ghost from_gives = { λ _ error. error ≡ OutOfMemory };

    fn from(_error: AllocFailed<T>) -> SettingsError {
        SettingsError::OutOfMemory
    }
}

impl From<LoadError> for SettingsError {
    ghost use Rattle.std.specs.Prelude.{◌≡◌};
    ghost use Rattle.test_runner_core_settings.specs.Calls.{error_of_load};

    ghost from_gives = { λ part error. error ≡ error_of_load part };

    fn from(error: LoadError) -> SettingsError {
        match error {
            LoadError::Refused(fault) => SettingsError::Refused(SettingsFault::Load(fault)),
            LoadError::OutOfMemory => SettingsError::OutOfMemory,
        }
    }
}

impl From<ProfileError> for SettingsError {
    ghost use Rattle.std.specs.Prelude.{◌≡◌};
    ghost use Rattle.test_runner_core_settings.specs.Calls.{error_of_profile};

    ghost from_gives = { λ part error. error ≡ error_of_profile part };

    fn from(error: ProfileError) -> SettingsError {
        match error {
            ProfileError::NotFound(told) => {
                SettingsError::Refused(SettingsFault::ProfileNotFound(told))
            }
            ProfileError::OutOfMemory => SettingsError::OutOfMemory,
        }
    }
}

impl From<PlatformFactsError> for SettingsError {
    ghost use Rattle.std.specs.Prelude.{◌≡◌};
    ghost use Rattle.test_runner_core_settings.specs.Calls.{error_of_facts};

    ghost from_gives = { λ part error. error ≡ error_of_facts part };

    fn from(error: PlatformFactsError) -> SettingsError {
        match error {
            PlatformFactsError::RepeatedFact => {
                SettingsError::Refused(SettingsFault::RepeatedFact)
            }
            PlatformFactsError::OutOfMemory => SettingsError::OutOfMemory,
        }
    }
}

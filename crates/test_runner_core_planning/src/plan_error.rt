// Why a plan wasn't built.
use crate::plan_fault::PlanFault;
use std::alloc::{AllocError, AllocFailed};
use test_runner_core_listing::ListingError;
use test_runner_core_settings::{SettingsError, VersionPassError};
use test_runner_core_workspace::WorkspaceError;
use thiserror::Error;

/// Why inputs have no plan, or why that isn't known.
#[derive(Debug, PartialEq, Eq, Drop, Error)]
pub enum PlanError {
    /// They are refused.
    #[error(transparent)]
    Refused(PlanFault),
    /// There was no memory, which says nothing of the inputs.
    #[error("OutOfMemory")]
    OutOfMemory,
}

impl From<AllocError> for PlanError {
    ghost use Rattle.std.specs.Prelude.{◌≡◌};
    ghost use Rattle.test_runner_core_planning.specs.declared.plan_error.PlanError.TheVariants.{OutOfMemory};

    ghost from_gives = { λ _ error. error ≡ OutOfMemory };

    fn from(_error: AllocError) -> PlanError {
        PlanError::OutOfMemory
    }
}

impl<T: Drop> From<AllocFailed<T>> for PlanError {
    ghost use Rattle.std.specs.Prelude.{◌≡◌};
    ghost use Rattle.test_runner_core_planning.specs.declared.plan_error.PlanError.TheVariants.{OutOfMemory};

    ghost from_gives = { λ _ error. error ≡ OutOfMemory };

    fn from(_error: AllocFailed<T>) -> PlanError {
        PlanError::OutOfMemory
    }
}

impl From<WorkspaceError> for PlanError {
    ghost use Rattle.std.specs.Prelude.{◌≡◌};
    ghost use Rattle.test_runner_core_planning.specs.Refusals.{error_of_workspace};

    ghost from_gives = { λ part error. error ≡ error_of_workspace part };

    fn from(error: WorkspaceError) -> PlanError {
        match error {
            WorkspaceError::Refused(fault) => PlanError::Refused(PlanFault::from(fault)),
            WorkspaceError::OutOfMemory => PlanError::OutOfMemory,
        }
    }
}

impl From<VersionPassError> for PlanError {
    ghost use Rattle.std.specs.Prelude.{◌≡◌};
    ghost use Rattle.test_runner_core_planning.specs.Refusals.{error_of_pass};

    ghost from_gives = { λ part error. error ≡ error_of_pass part };

    fn from(error: VersionPassError) -> PlanError {
        match error {
            VersionPassError::Refused(fault) => PlanError::Refused(PlanFault::from(fault)),
            VersionPassError::OutOfMemory => PlanError::OutOfMemory,
        }
    }
}

impl From<SettingsError> for PlanError {
    ghost use Rattle.std.specs.Prelude.{◌≡◌};
    ghost use Rattle.test_runner_core_planning.specs.Refusals.{error_of_settings};

    ghost from_gives = { λ part error. error ≡ error_of_settings part };

    fn from(error: SettingsError) -> PlanError {
        match error {
            SettingsError::Refused(fault) => PlanError::Refused(PlanFault::from(fault)),
            SettingsError::OutOfMemory => PlanError::OutOfMemory,
        }
    }
}

impl From<ListingError> for PlanError {
    ghost use Rattle.std.specs.Prelude.{◌≡◌};
    ghost use Rattle.test_runner_core_planning.specs.Refusals.{error_of_listing};

    ghost from_gives = { λ part error. error ≡ error_of_listing part };

    fn from(error: ListingError) -> PlanError {
        match error {
            ListingError::Refused(fault) => PlanError::Refused(PlanFault::from(fault)),
            ListingError::OutOfMemory => PlanError::OutOfMemory,
        }
    }
}

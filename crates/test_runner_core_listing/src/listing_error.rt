// Why tests weren't listed.
use crate::listing_fault::ListingFault;
use std::alloc::{AllocError, AllocFailed};
use thiserror::Error;

/// Why the tests of a binary weren't listed, or why that isn't known.
#[derive(Debug, PartialEq, Eq, Drop, Error)]
pub enum ListingError {
    /// What the binary answers is refused.
    #[error(transparent)]
    Refused(ListingFault),
    /// There was no memory, which says nothing of the binary.
    #[error("out of memory")]
    OutOfMemory,
}

impl From<AllocError> for ListingError {
    ghost use Rattle.std.specs.Prelude.{◌≡◌};
    ghost use Rattle.test_runner_core_listing.specs.declared.listing_error.ListingError.TheVariants.{OutOfMemory};

    ghost from_gives = { λ _ error. error ≡ OutOfMemory };

    fn from(_error: AllocError) -> ListingError {
        ListingError::OutOfMemory
    }
}

impl<T: Drop> From<AllocFailed<T>> for ListingError {
    ghost use Rattle.std.specs.Prelude.{◌≡◌};
    ghost use Rattle.test_runner_core_listing.specs.declared.listing_error.ListingError.TheVariants.{OutOfMemory};

    ghost from_gives = { λ _ error. error ≡ OutOfMemory };

    fn from(_error: AllocFailed<T>) -> ListingError {
        ListingError::OutOfMemory
    }
}

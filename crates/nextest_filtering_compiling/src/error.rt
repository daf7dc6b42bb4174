// Why a filterset is refused.
use nextest_filtering_arguments::ParseSingleError;
use nextest_text::Text;
use std::alloc::{AllocError, AllocFailed};
use thiserror::Error;

/// A filterset's text, and its faults.
#[derive(Clone, Debug, Drop)]
pub struct FiltersetParseErrors {
    /// The text.
    pub input: Text,
    /// Its faults: those of the text in the order in which they were found, else the predicates
    /// that may not stand in a filterset of its kind, else those that nothing can be, from the
    /// left.
    pub errors: Vec<ParseSingleError>,
}

/// Why a filterset isn't made.
#[derive(Debug, Drop, Error)]
pub enum FiltersetError {
    /// For these faults.
    #[error("the text is no filterset here")]
    Refused(FiltersetParseErrors),
    /// There is no memory, which says nothing of the text.
    #[error("out of memory")]
    OutOfMemory,
}

impl From<AllocError> for FiltersetError {
    ghost use Rattle.std.specs.Prelude.{◌≡◌};
    ghost use Rattle.nextest_filtering_compiling.specs.declared.error.FiltersetError.TheVariants.{OutOfMemory};

    ghost from_gives = { λ _ error. error ≡ OutOfMemory };

    fn from(_: AllocError) -> FiltersetError {
        FiltersetError::OutOfMemory
    }
}

impl<T: Drop> From<AllocFailed<T>> for FiltersetError {
    ghost use Rattle.std.specs.Prelude.{◌≡◌};
    ghost use Rattle.nextest_filtering_compiling.specs.declared.error.FiltersetError.TheVariants.{OutOfMemory};

    ghost from_gives = { λ _ error. error ≡ OutOfMemory };

    fn from(_: AllocFailed<T>) -> FiltersetError {
        FiltersetError::OutOfMemory
    }
}

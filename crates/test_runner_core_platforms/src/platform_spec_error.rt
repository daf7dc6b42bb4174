// Why a platform spec isn't read.
use std::alloc::AllocError;
use thiserror::Error;

/// Why a platform spec isn't read.
#[derive(Debug, Drop, Error)]
pub enum PlatformSpecError {
    /// The text is no platform spec.
    #[error("the text is no platform spec, from byte {offset} on")]
    BadSpec {
        /// Where it is none, in bytes from its start.
        offset: usize,
    },
    /// There is no memory, which says nothing of the text.
    #[error("out of memory")]
    OutOfMemory,
}

impl From<AllocError> for PlatformSpecError {
    ghost use Rattle.std.specs.Prelude.{◌≡◌};
    ghost use Rattle.test_runner_core_platforms.specs.declared.platform_spec_error.PlatformSpecError.TheVariants.{OutOfMemory};

    ghost from_gives = { λ _ error. error ≡ OutOfMemory };

    fn from(_: AllocError) -> PlatformSpecError {
        PlatformSpecError::OutOfMemory
    }
}

// Where reading stopped, and why.
use crate::steps::{PathStep, Steps};
use std::alloc::{AllocError, AllocFailed, Global};

/// Why nothing was read.
#[derive(Drop)]
pub enum Fault {
    /// What stands at this path is missing, ill-typed or not allowed.
    At(Steps),
    /// There was no memory, which says nothing of the value.
    OutOfMemory,
}

impl From<AllocError> for Fault {
    ghost use Rattle.std.specs.Prelude.{◌≡◌};
    ghost use Rattle.nextest_json.specs.declared.fault.Fault.TheVariants.{OutOfMemory};

    ghost from_gives = { λ _ fault. fault ≡ OutOfMemory };

    fn from(_error: AllocError) -> Fault {
        Fault::OutOfMemory
    }
}

impl<T: Drop> From<AllocFailed<T>> for Fault {
    ghost use Rattle.std.specs.Prelude.{◌≡◌};
    ghost use Rattle.nextest_json.specs.declared.fault.Fault.TheVariants.{OutOfMemory};

    ghost from_gives = { λ _ fault. fault ≡ OutOfMemory };

    fn from(_error: AllocFailed<T>) -> Fault {
        Fault::OutOfMemory
    }
}

impl Fault {
    ghost use Rattle.std.specs.Prelude.{◌≡◌, [], ◌∷◌};
    ghost use Rattle.nextest_json.specs.Calls.{IsBelow};
    ghost use Rattle.nextest_json.specs.Paths.{step_text};

    /// What is read here itself is missing, ill-typed or not allowed.
    pub fn here(alloc: Global) -> Fault
        ensures { result ≡ Fault.At [] }
    {
        Fault::At(Steps::new(alloc))
    }

    /// The same fault, told from one step further out; where there is no memory for that, want of
    /// memory.
    pub fn below(self, step: PathStep) -> Fault
        ensures { IsBelow self (step_text step) result }
    {
        match self {
            Fault::At(path) => match path.below(step) {
                Ok(longer) => Fault::At(longer),
                Err(_) => Fault::OutOfMemory,
            },
            Fault::OutOfMemory => Fault::OutOfMemory,
        }
    }
}

// A text of JSON, as a tree of values.
ghost use Rattle.std.specs.Prelude.{◌≡◌, is_some, true};
ghost use Rattle.json.specs.Value.{value_view};
ghost use Rattle.serde_json.specs.Read.{of_json};

mod reading;

use json::{Scratch, Value};
use std::alloc::{AllocError, Global};

/// Why a text is no document.
#[derive(Clone, Copy, Debug, PartialEq, Eq)]
pub enum DocumentError {
    /// It is no JSON, nests deeper than 127, or has a number that is too large for a float.
    Syntax,
    /// There was no memory, which says nothing of what stands in it.
    OutOfMemory,
}

impl From<AllocError> for DocumentError {
    ghost use Rattle.nextest_json.specs.declared.document.DocumentError.TheVariants.{OutOfMemory};

    ghost from_gives = { λ _ error. error ≡ OutOfMemory };

    fn from(_error: AllocError) -> DocumentError {
        DocumentError::OutOfMemory
    }
}

/// The memory that texts with escapes are read into: up to a byte for each byte of the document.
/// One serves one document.
#[derive(Drop)]
pub struct JsonMemory {
    scratch: Scratch,
}

impl JsonMemory {
    /// No memory yet.
    pub fn new(alloc: Global) -> JsonMemory {
        JsonMemory {
            scratch: Scratch::new(alloc),
        }
    }
}

/// A text of JSON, read: a tree of values, whose texts without escapes are lent from it. A value
/// takes 32 bytes, and a list or an object that isn't empty takes room for at least four. In a
/// clause it is `whole`: its data.
#[derive(Drop)]
pub struct JsonDocument<'a> {
    root: Value<'a>,
    ghost there: { is_some (of_json (value_view root)) ≡ true },
}

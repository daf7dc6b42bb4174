// Why a value is refused.
ghost use Rattle.std.specs.Prelude.{◌≡◌, IfOk};

use crate::key_path::KeyPath;
use nextest_text::Text;
use std::alloc::{AllocError, Global};
use thiserror::Error;

/// A value that its key can't have.
#[derive(Clone, Debug, PartialEq, Eq, Error)]
#[error("{path}: expected {expected}, found {found}")]
pub struct BadValue {
    /// Where the value stands, or the key that is missing.
    pub path: KeyPath,
    /// What may stand there.
    pub expected: &'static str,
    /// What stands there: a text in quotes, a number or a truth value as written, else the name of
    /// its type; `nothing` where a key is missing.
    pub found: Text,
}

impl BadValue {
    /// The refusal of a key that is no name, where it stands, told as it is written. An `Err` only
    /// where there was no memory.
    pub fn of_key(
        alloc: Global,
        path: KeyPath,
        key: &str,
        expected: &'static str,
    ) -> Result<BadValue, AllocError>
        ensures path { IfOk result (λ bad. bad.path ≡ path) }
        ensures expected { IfOk result (λ bad. bad.expected.now ≡ expected.now) }
    {
        let found = Text::from(format!(in alloc; "{key:?}")?);
        Ok(BadValue {
            path,
            expected,
            found,
        })
    }
}

// One call drops it, whoever holds it.
impl Drop for BadValue {
    fn drop(self) {
        let Self {
            path: _,
            expected: _,
            found: _,
        } = self;
    }
}

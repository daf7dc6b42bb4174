// Why a text is no identifier.
use nextest_text::Text;
use std::alloc::{AllocError, AllocFailed};
use thiserror::Error;

/// Why a text is no identifier.
#[derive(Clone, Debug, PartialEq, Eq, Drop, Error)]
pub enum InvalidIdentifier {
    /// It is empty.
    #[error("identifier is empty")]
    Empty,
    /// It isn't empty and isn't a plain identifier: the text, in its NFC.
    #[error("invalid identifier `{0}`")]
    InvalidXid(Text),
    /// It begins with `@` and isn't `@tool:`, a name, `:` and a name: the text, in its NFC.
    #[error("tool identifier not of the form `@tool:tool-name:identifier`: `{0}`")]
    ToolIdentifierInvalidFormat(Text),
    /// It is an identifier of a tool in which one of the two names is empty: the text, in its NFC.
    #[error("tool identifier has empty component: `{0}`")]
    ToolComponentEmpty(Text),
    /// It is an identifier of a tool in which one of the two names is no plain identifier: the
    /// text, in its NFC.
    #[error("tool identifier contains invalid identifier: `{0}`")]
    ToolIdentifierInvalidXid(Text),
    /// There was no memory for it, which says nothing of the text.
    #[error("out of memory")]
    OutOfMemory,
}

impl From<AllocError> for InvalidIdentifier {
    ghost use Rattle.std.specs.Prelude.{◌≡◌};
    ghost use Rattle.nextest_config_elements_identifiers.specs.declared.invalid_identifier.InvalidIdentifier.TheVariants.{OutOfMemory};

    ghost from_gives = { λ _ refusal. refusal ≡ OutOfMemory };

    fn from(_error: AllocError) -> InvalidIdentifier {
        InvalidIdentifier::OutOfMemory
    }
}

impl<T: Drop> From<AllocFailed<T>> for InvalidIdentifier {
    ghost use Rattle.std.specs.Prelude.{◌≡◌};
    ghost use Rattle.nextest_config_elements_identifiers.specs.declared.invalid_identifier.InvalidIdentifier.TheVariants.{OutOfMemory};

    ghost from_gives = { λ _ refusal. refusal ≡ OutOfMemory };

    fn from(_error: AllocFailed<T>) -> InvalidIdentifier {
        InvalidIdentifier::OutOfMemory
    }
}

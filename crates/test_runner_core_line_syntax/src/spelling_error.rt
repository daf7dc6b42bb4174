// Why bytes spell no event.
use super::parse_line_error::ParseLineError;
use thiserror::Error;

/// Why the bytes of a line spell no event.
#[derive(Clone, Copy, Debug, PartialEq, Eq, Hash, Error)]
pub enum SpellingError {
    /// They aren't UTF-8.
    #[error("the line isn't UTF-8")]
    NotUtf8,
    /// They aren't empty and spell no event.
    #[error("the line spells no event")]
    BadLine,
}

impl From<SpellingError> for ParseLineError {
    ghost use Rattle.std.specs.Prelude.{◌≡◌};
    ghost use Rattle.test_runner_core_line_syntax.specs.Faults.{as_told};

    ghost from_gives = { λ error told. told ≡ as_told error };

    fn from(error: SpellingError) -> ParseLineError {
        match error {
            SpellingError::NotUtf8 => ParseLineError::NotUtf8,
            SpellingError::BadLine => ParseLineError::BadLine,
        }
    }
}

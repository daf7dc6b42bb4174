//! The lines of a log: what each says, and how it is spelled.
#![tactic(auto)]

mod hex_bytes;
mod hex_digits;
mod hex_text;
pub mod laws;
mod lent;
mod log_line;
mod message;
mod parse_line_error;
mod reading;
mod reasons;
mod signals;
mod spelling_error;
mod utf8;
mod writing;

pub use hex_digits::HexDigits;
pub use hex_text::HexText;
pub use lent::{LentLine, LentOutput, LentRecord, LentStream};
pub use log_line::LogLine;
pub use parse_line_error::ParseLineError;
pub use reasons::reason_word;
pub use spelling_error::SpellingError;

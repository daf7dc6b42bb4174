//! The texts and regular expressions that stand as arguments in a filterset: where each ends, what
//! it stands for, and how it prints.
#![tactic(auto)]

mod ends;
mod escapes;
mod hexadecimal;
pub mod laws;
mod printing;
mod regexes;

pub use ends::{split_regex, split_text};
pub use escapes::{EscapeSpan, Unescaped, unescape};
pub use printing::{EscapedText, SlashedText, escaped_text, slashed_text};
pub use regexes::unslash;

//! Owned texts and lists that contracts see as plain lists.
//!
//! A `Text` is a `String`, or a part of one that others share, whose value in a clause is the list
//! of its bytes, a `Listing<T>` a `Vec<T>` whose value is the list of its elements, and `Texts` are
//! texts in one piece of memory. A struct that holds them is then its own plain record in every
//! clause, and its derived `==` and `clone` are exact. A `Text` is made of a `String` without
//! memory, and a `Listing` is made of a `Vec` and turned into one so.
#![tactic(auto)]

mod decimal;
mod listing;
mod part;
mod text;
mod texts;

pub use decimal::{i32_of_decimal, u64_of_decimal};
pub use listing::Listing;
pub use text::Text;
pub use texts::Texts;

//! How values of a configuration are read: why one is refused, and where it stands.
//!
//! A reader is handed a TOML value and its path, the keys that lead to it; a list position is such
//! a key too, in decimal. It gives the value, or refuses with the path of the first thing that is
//! none.
#![tactic(auto)]

mod bad_value;
mod key_path;
mod list;
mod members;
mod refusing;
mod table;
mod value_error;

pub use bad_value::BadValue;
pub use key_path::KeyPath;
pub use list::texts_in;
pub use members::TableMembers;
pub use refusing::{refused, refused_below};
pub use table::member;
pub use value_error::ValueError;

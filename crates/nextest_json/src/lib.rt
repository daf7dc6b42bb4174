//! JSON: a text as a tree of values that are lent from it, and how the parts of a value are read,
//! each fault with its path.
#![tactic(auto)]

mod document;
mod fault;
mod form;
mod items;
mod number;
mod parts;
mod range;
mod steps;
mod value;

pub use document::{DocumentError, JsonDocument, JsonMemory};
pub use fault::Fault;
pub use form::{
    Form, defaulted, element, has_items, has_member, listed_member, optional, required,
    shared_texts, text, truth, word,
};
pub use items::JsonItems;
pub use steps::{PathStep, Steps};
pub use value::JsonValue;

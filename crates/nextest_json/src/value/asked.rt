// What a value is asked.
ghost use Rattle.std.specs.Prelude.{◌≡◌, Some, is_some, option_and_then, option_map, true};
ghost use Rattle.json.specs.Value.{value_view};
ghost use Rattle.serde_json.specs.Find.{as_bool, as_i64, as_null, as_number, as_object, as_str, as_u64, get};
ghost use Rattle.serde_json.specs.Read.{of_json};
ghost use Rattle.serde_json.specs.View.{number_view, view};
ghost use Rattle.nextest_json.specs.Left.{items_left};
ghost use Rattle.nextest_json.specs.Listed.{items};
ghost use Rattle.nextest_json.specs.Seen.{data_of};

use super::{JsonValue, Source};
use crate::items::JsonItems;
use crate::number::number_in;
use crate::parts::{is_object, items_of};
use serde_json::{Number, Value};

impl<'t, 'a> JsonValue<'t, 'a> {
    /// The value that a tree is.
    pub fn of_tree(value: &'t Value) -> JsonValue<'t, 'a>
        ensures { data_of result ≡ view value.now }
    {
        JsonValue {
            source: Source::Tree(value),
        }
    }

    // A value of a document.
    pub(crate) fn of_document(value: &'t json::Value<'a>) -> JsonValue<'t, 'a>
        requires { is_some (of_json (value_view value.now)) ≡ true }
        ensures { Some (data_of result) ≡ of_json (value_view value.now) }
    {
        JsonValue {
            source: Source::Document(value),
        }
    }

    /// What an object has under a name, the last of that name. The time grows with the object's
    /// members.
    pub fn get(&self, name: &str) -> Option<JsonValue<'t, 'a>>
        ensures { option_map data_of result ≡ get name.now (data_of self.now) }
    {
        match &self.source {
            Source::Document(value) => match value.get(name) {
                Some(found) => Some(JsonValue::of_document(found)),
                None => None,
            },
            Source::Tree(value) => match value.get(name) {
                Some(found) => Some(JsonValue::of_tree(found)),
                None => None,
            },
        }
    }

    /// The text, where the value is one.
    pub fn as_str(&self) -> Option<&'t str>
        ensures { option_map (λ text. text.now) result ≡ as_str (data_of self.now) }
    {
        match &self.source {
            Source::Document(value) => value.as_str(),
            Source::Tree(value) => value.as_str(),
        }
    }

    /// The truth value, where the value is one.
    pub fn as_bool(&self) -> Option<bool>
        ensures { result ≡ as_bool (data_of self.now) }
    {
        match &self.source {
            Source::Document(value) => value.as_bool(),
            Source::Tree(value) => value.as_bool(),
        }
    }

    /// The number, where the value is one.
    pub fn as_number(&self) -> Option<Number>
        ensures { option_map number_view result ≡ as_number (data_of self.now) }
    {
        match &self.source {
            Source::Document(value) => match value.as_number() {
                Some(text) => number_in(text),
                None => None,
            },
            Source::Tree(value) => value.as_number().copied(),
        }
    }

    /// The number, where the value is one from 0 to 18,446,744,073,709,551,615 without point and
    /// exponent.
    pub fn as_u64(&self) -> Option<u64>
        ensures { result ≡ option_and_then as_u64 (as_number (data_of self.now)) }
    {
        match self.as_number() {
            Some(number) => number.as_u64(),
            None => None,
        }
    }

    /// The number, where the value is one without point and exponent that 64 bits with a sign hold.
    pub fn as_i64(&self) -> Option<i64>
        ensures { result ≡ option_and_then as_i64 (as_number (data_of self.now)) }
    {
        match self.as_number() {
            Some(number) => number.as_i64(),
            None => None,
        }
    }

    /// Whether the value is null.
    pub fn is_null(&self) -> bool
        ensures { result ≡ is_some (as_null (data_of self.now)) }
    {
        match &self.source {
            Source::Document(value) => value.is_null(),
            Source::Tree(value) => value.is_null(),
        }
    }

    /// Whether the value is an object.
    pub fn is_object(&self) -> bool
        ensures { result ≡ is_some (as_object (data_of self.now)) }
    {
        match &self.source {
            Source::Document(value) => is_object(value),
            Source::Tree(value) => value.is_object(),
        }
    }

    /// The items, where the value is a list.
    pub fn items(&self) -> Option<JsonItems<'t, 'a>>
        ensures { option_map items_left result ≡ items (data_of self.now) }
    {
        match &self.source {
            Source::Document(value) => match items_of(value) {
                Some(items) => Some(JsonItems::of_document(items)),
                None => None,
            },
            Source::Tree(value) => match value.as_array() {
                Some(values) => Some(JsonItems::of_trees(values.as_slice())),
                None => None,
            },
        }
    }
}

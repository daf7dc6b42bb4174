// What has a form in JSON, and how the parts of an object or a list are read.
ghost use Rattle.std.specs.Prelude.{◌≡◌, ◌==◌, length, option_map, slice_get};
ghost use Rattle.serde_json.specs.Data.{Data};
ghost use Rattle.serde_json.specs.Find.{as_bool};
ghost use Rattle.nextest_json.specs.Calls.{as_texts, Gives};
ghost use Rattle.nextest_json.specs.Left.{items_left};
ghost use Rattle.nextest_json.specs.Parts as given;
ghost use Rattle.nextest_json.specs.Paths.{step_text};
ghost use Rattle.nextest_json.specs.Reading as read;
ghost use Rattle.nextest_json.specs.Seen.{data_of};

use crate::fault::Fault;
use crate::items::JsonItems;
use crate::steps::PathStep;
use crate::value::JsonValue;
use nextest_text::{Listing, Text, Texts};
use std::alloc::Global;

/// What has a form in the JSON of a `Whole`: it is a part of one, or one itself. A type may have
/// another form in another whole.
pub trait Form<Whole>: Drop {
    // What reading gives.
    ghost reading: { Data → read.Reading Self };

    /// What is read of a value. An `Err` says where the first thing stands, in the written order,
    /// that is missing, ill-typed or not allowed, or that there was no memory.
    fn from_value(alloc: Global, value: &JsonValue<'_, '_>) -> Result<Self, Fault>
        ensures { Gives result (reading (data_of value.now)) };
}

/// A member that must stand; null is none. An `Err` as of `from_value`, and where it is missing.
pub fn required<Whole, T: Form<Whole>>(
    alloc: Global,
    object: &JsonValue<'_, '_>,
    name: &'static str,
) -> Result<T, Fault>
    ensures { Gives result (read.required name.now T.reading (data_of object.now)) }
{
    match member(object, name) {
        None => Err(Fault::here(alloc).below(PathStep::Name(name))),
        Some(value) => part(alloc, &value, PathStep::Name(name)),
    }
}

/// A member that may be absent, for which something else then stands. An `Err` as of `from_value`.
pub fn defaulted<Whole, T: Form<Whole>>(
    alloc: Global,
    object: &JsonValue<'_, '_>,
    name: &'static str,
    otherwise: T,
) -> Result<T, Fault>
    ensures { Gives result (read.defaulted name.now T.reading otherwise (data_of object.now)) }
{
    match member(object, name) {
        None => Ok(otherwise),
        Some(value) => part(alloc, &value, PathStep::Name(name)),
    }
}

/// A member that may be absent. An `Err` as of `from_value`.
pub fn optional<Whole, T: Form<Whole>>(
    alloc: Global,
    object: &JsonValue<'_, '_>,
    name: &'static str,
) -> Result<Option<T>, Fault>
    ensures { Gives result (read.optional name.now T.reading (data_of object.now)) }
{
    match member(object, name) {
        None => Ok(None),
        Some(value) => Ok(Some(part(alloc, &value, PathStep::Name(name))?)),
    }
}

/// A member that is a list; where it is absent, the list is empty. Null is no list. An `Err` as of
/// `from_value`.
pub fn listed_member<Whole, T: Form<Whole>>(
    alloc: Global,
    object: &JsonValue<'_, '_>,
    name: &'static str,
) -> Result<Listing<T>, Fault>
    ensures { Gives result (read.listed_member name.now T.reading (data_of object.now)) }
{
    match object.get(name) {
        None => Ok(Listing::new(alloc)),
        Some(value) => part(alloc, &value, PathStep::Name(name)),
    }
}

/// Whether an object has something under a name; null is nothing.
pub fn has_member(object: &JsonValue<'_, '_>, name: &'static str) -> bool
    ensures { result ≡ given.has_member name.now (data_of object.now) }
{
    member(object, name).is_some()
}

/// The text that an object has under a name.
pub fn word<'t>(object: &JsonValue<'t, '_>, name: &'static str) -> Option<&'t str>
    ensures { option_map (λ word. word.now) result ≡ given.word name.now (data_of object.now) }
{
    match object.get(name) {
        None => None,
        Some(value) => value.as_str(),
    }
}

// What an object has under a name; null is nothing.
fn member<'t, 'a>(object: &JsonValue<'t, 'a>, name: &'static str) -> Option<JsonValue<'t, 'a>>
    ensures { option_map data_of result ≡ given.member name.now (data_of object.now) }
{
    match object.get(name) {
        Some(value) if !value.is_null() => Some(value),
        _ => None,
    }
}

// A part, told by its place in the whole.
fn part<Whole, T: Form<Whole>>(
    alloc: Global,
    value: &JsonValue<'_, '_>,
    step: PathStep,
) -> Result<T, Fault>
    ensures { Gives result (read.under (step_text step) (T.reading (data_of value.now))) }
{
    match T::from_value(alloc, value) {
        Ok(found) => Ok(found),
        Err(fault) => Err(fault.below(step)),
    }
}

/// Whether a value is a list of so many items.
pub fn has_items(value: &JsonValue<'_, '_>, count: usize) -> bool
    ensures { result ≡ given.has_items count (data_of value.now) }
{
    match value.items() {
        Some(items) => are_so_many(items, count),
        None => false,
    }
}

// Whether so many items are left; no more than these are looked at.
fn are_so_many(items: JsonItems<'_, '_>, count: usize) -> bool
    ensures { result ≡ (length (items_left items.entry) == count) }
{
    let mut more = items;
    for _passed in 0..count {
        let Some(_) = more.next() else {
            return false;
        };
    }
    more.next().is_none()
}

/// The item at a position of a list; the time grows with the position. An `Err` as of `from_value`,
/// and where the list has no such position.
pub fn element<Whole, T: Form<Whole>>(
    alloc: Global,
    list: &JsonValue<'_, '_>,
    position: usize,
) -> Result<T, Fault>
    ensures { Gives result (read.element position T.reading (data_of list.now)) }
{
    match item_at(list, position) {
        Some(value) => part(alloc, &value, PathStep::Position(position)),
        None => Err(Fault::here(alloc).below(PathStep::Position(position))),
    }
}

// What stands at a position of a list.
fn item_at<'t, 'a>(list: &JsonValue<'t, 'a>, position: usize) -> Option<JsonValue<'t, 'a>>
    ensures { option_map data_of result ≡ given.item_at position (data_of list.now) }
{
    match list.items() {
        Some(items) => nth(items, position),
        None => None,
    }
}

// The item behind so many.
fn nth<'t, 'a>(items: JsonItems<'t, 'a>, count: usize) -> Option<JsonValue<'t, 'a>>
    ensures { option_map data_of result ≡ slice_get (items_left items.entry) count }
{
    let mut more = items;
    for _passed in 0..count {
        let Some(_) = more.next() else {
            return None;
        };
    }
    more.next()
}

// The items in their order. An `Err` as of `from_value`, for the first item that has one.
fn each<Whole, T: Form<Whole>>(alloc: Global, items: JsonItems<'_, '_>) -> Result<Listing<T>, Fault>
    ensures { Gives result (read.each T.reading 0 (items_left items.entry)) }
{
    let mut more = items;
    let mut found = Listing::new(alloc);
    while let Some(item) = more.next() {
        let position = found.len();
        found.push(part(alloc, &item, PathStep::Position(position))?)?;
    }
    Ok(found)
}

/// The items, each a text, in their order and in one piece of memory. An `Err` tells of the first
/// item that is no text, or that there was no memory.
pub fn shared_texts(alloc: Global, items: JsonItems<'_, '_>) -> Result<Texts, Fault>
    ensures { Gives result (read.each read.text 0 (items_left items.entry)) }
{
    let texts = lent_texts(alloc, items)?;
    Ok(Texts::from_strs(alloc, texts.as_slice())?)
}

// The items, each a text, lent.
fn lent_texts<'t>(alloc: Global, items: JsonItems<'t, '_>) -> Result<Vec<&'t str>, Fault>
    ensures { Gives (as_texts result) (read.each read.text 0 (items_left items.entry)) }
{
    let mut more = items;
    let mut found = Vec::new(alloc);
    while let Some(item) = more.next() {
        match item.as_str() {
            Some(text) => found.push(text)?,
            None => return Err(Fault::here(alloc).below(PathStep::Position(found.len()))),
        }
    }
    Ok(found)
}

impl<Whole, T: Form<Whole>> Form<Whole> for Listing<T> {
    ghost reading = { read.list T.reading };

    fn from_value(alloc: Global, value: &JsonValue<'_, '_>) -> Result<Listing<T>, Fault> {
        match value.items() {
            Some(items) => each(alloc, items),
            None => Err(Fault::here(alloc)),
        }
    }
}

/// A text. An `Err` where the value is none, or where there was no memory.
pub fn text(alloc: Global, value: &JsonValue<'_, '_>) -> Result<Text, Fault>
    ensures { Gives result (read.text (data_of value.now)) }
{
    match value.as_str() {
        Some(text) => Ok(Text::from_str(alloc, text)?),
        None => Err(Fault::here(alloc)),
    }
}

/// A truth value. An `Err` where the value is none.
pub fn truth(alloc: Global, value: &JsonValue<'_, '_>) -> Result<bool, Fault>
    ensures { Gives result (read.leaf as_bool (data_of value.now)) }
{
    match value.as_bool() {
        Some(truth) => Ok(truth),
        None => Err(Fault::here(alloc)),
    }
}

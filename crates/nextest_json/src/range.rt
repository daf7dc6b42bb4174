// Whether the numbers of a document are in range.
ghost use Rattle.std.specs.Prelude.{◌≡◌};
ghost use Rattle.json.specs.Value.{items_view, members_view, value_view};
ghost use Rattle.nextest_json.specs.Range as range;

use crate::number::number_in;
use json::Value;

// Whether each number of a value is in range.
#[cycle(range)]
pub(crate) fn is_in_range(value: &Value<'_>) -> bool
    ensures { result ≡ range.is_in_range (value_view value.now) }
{
    match value {
        Value::Number(text) => number_in(text).is_some(),
        Value::Array(items) => are_items_in_range(items),
        Value::Object(members) => are_members_in_range(members),
        Value::Null | Value::Bool(_) | Value::String(_) => true,
    }
}

// Whether each number of some items is.
#[cycle(range)]
fn are_items_in_range(items: &Vec<Value<'_>>) -> bool
    ensures { result ≡ range.are_items_in_range (items_view items.now.items) }
{
    for item in items {
        if !is_in_range(item) {
            return false;
        }
    }
    true
}

// Whether each number of some members is.
#[cycle(range)]
fn are_members_in_range(members: &Vec<(&str, Value<'_>)>) -> bool
    ensures { result ≡ range.are_members_in_range (members_view members.now.items) }
{
    for member in members {
        if !is_in_range(&member.1) {
            return false;
        }
    }
    true
}

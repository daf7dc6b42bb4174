// What stands in a value of a document.
ghost use Rattle.std.specs.Prelude.{◌≡◌, is_some, option_map};
ghost use Rattle.json.specs.Find.{as_array, as_object};
ghost use Rattle.json.specs.Value.{items_view, value_view};

use json::Value;

// The items, where a value is a list.
pub(crate) fn items_of<'t, 'a>(value: &'t Value<'a>) -> Option<&'t [Value<'a>]>
    ensures { option_map (λ items. items_view items.now) result ≡ as_array (value_view value.now) }
{
    match value {
        Value::Array(items) => Some(items.as_slice()),
        Value::Null | Value::Bool(_) | Value::Number(_) | Value::String(_) | Value::Object(_) =>
            None,
    }
}

// Whether a value is an object.
pub(crate) fn is_object(value: &Value<'_>) -> bool
    ensures { result ≡ is_some (as_object (value_view value.now)) }
{
    match value {
        Value::Object(_) => true,
        Value::Null | Value::Bool(_) | Value::Number(_) | Value::String(_) | Value::Array(_) => {
            false
        }
    }
}

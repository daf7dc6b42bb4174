// What has a form in the JSON of run events.
ghost use Rattle.std.specs.Prelude.{◌≡◌, Ok, IfOk};
ghost use Rattle.serde_json.specs.Data.{Data};
ghost use Rattle.serde_json.specs.View.{view};
ghost use Rattle.nextest_run_events_json.specs.Calls.{Gives};
ghost use Rattle.nextest_run_events_json.specs.Forms as form_of;
ghost use Rattle.nextest_run_events_json.specs.Reading.{value_of};

use crate::json_error::JsonError;
use nextest_json::{Fault, Form, JsonValue};
use serde_json::Value;
use std::alloc::{AllocError, Global};

/// The JSON of run events, whose parts have the forms that are read and written here.
pub enum RunEvents {}

/// What has a form in the JSON of run events, which is written and read back.
pub trait JsonForm: Form<RunEvents> {
    // The data that a value is written as.
    ghost form: { Self → Data };

    // What is known of each value that a program has: a number has as many bits as its type.
    ghost fits: { Self → Type 0 };

    /// The value as JSON. It fails only on allocation.
    fn to_json(&self, alloc: Global) -> Result<Value, AllocError>
        ensures { IfOk result (λ written. view written ≡ form self.now) };

    /// The value that JSON has the form of.
    fn from_json(alloc: Global, value: &Value) -> Result<Self, JsonError>
        ensures { Gives result (value_of (Self.reading (view value.now))) }
    {
        match Self::from_value(alloc, &JsonValue::of_tree(value)) {
            Ok(found) => Ok(found),
            Err(Fault::At(_)) => Err(JsonError::BadJson),
            Err(Fault::OutOfMemory) => Err(JsonError::OutOfMemory),
        }
    }

    // What is written is read as what it was.
    ghost read_back: { (value : Self) → fits value → Self.reading (form value) ≡ Ok value };
}

// The form of what may be absent.
pub(crate) fn unless_absent<T: JsonForm>(
    alloc: Global,
    value: &Option<T>,
) -> Result<Value, AllocError>
    ensures { IfOk result (λ written. view written ≡ form_of.unless_absent T.form value.now) }
{
    match value {
        None => Ok(Value::Null),
        Some(value) => value.to_json(alloc),
    }
}

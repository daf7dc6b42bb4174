// The form of errors and their causes.
ghost use Rattle.std.specs.Prelude.{◌≡◌, IfOk, ⊤};
ghost use Rattle.serde_json.specs.Data.{string};
ghost use Rattle.serde_json.specs.View.{view};
ghost use Rattle.nextest_run_events_json.specs.Forms as form_of;
ghost use Rattle.nextest_run_events_json.specs.ReadBack as back;
ghost use Rattle.nextest_run_events_json.specs.Reading as read;

use crate::form::{JsonForm, RunEvents};
use nextest_json::{Fault, Form, JsonValue, listed_member, required};
use nextest_run_events_outputs::SerializableError;
use serde_json::{Value, json};
use std::alloc::{AllocError, Global};

// What the causes of an error say, the nearest first.
fn causes_to_json(alloc: Global, error: &SerializableError) -> Result<Value, AllocError>
    ensures { IfOk result (λ written. view written ≡ form_of.list string error.now.causes) }
{
    let mut written = Vec::new(alloc);
    for cause in error.causes() {
        written.push(cause.to_json(alloc)?)?;
    }
    Ok(Value::Array(written))
}

impl Form<RunEvents> for SerializableError {
    ghost reading = { read.error };

    fn from_value(alloc: Global, value: &JsonValue<'_, '_>) -> Result<SerializableError, Fault> {
        let causes = listed_member(alloc, value, "causes")?;
        let message = required(alloc, value, "message")?;
        Ok(SerializableError::from_message_and_causes(message, causes))
    }
}

impl JsonForm for SerializableError {
    ghost form = { form_of.error };

    ghost fits = { λ _. ⊤ };

    ghost read_back = { back.error_back };

    fn to_json(&self, alloc: Global) -> Result<Value, AllocError> {
        let causes = causes_to_json(alloc, self)?;
        let message = Value::try_from_str(alloc, self.message())?;
        json!(in alloc; {"causes": causes, "message": message})
    }
}

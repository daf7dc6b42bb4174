// The values that have no parts.
ghost use Rattle.std.specs.Prelude.{◌≡◌, ◌≢◌, Err, FitsSigned, IfOk, IsOkAnd, ⊤};
ghost use Rattle.std.specs.Int.{w32};
ghost use Rattle.serde_json.specs.Data.{boolean, string};
ghost use Rattle.serde_json.specs.View.{view};
ghost use Rattle.nextest_json.specs.Calls as read_as;
ghost use Rattle.nextest_json.specs.Reading.{text};
ghost use Rattle.nextest_json.specs.Seen.{data_of};
ghost use Rattle.nextest_run_events_json.specs.Calls.{Gives};
ghost use Rattle.nextest_run_events_json.specs.Forms as form_of;
ghost use Rattle.nextest_run_events_json.specs.Reading as read;
ghost use Rattle.nextest_run_events_json.specs.Reading.{value_of};
ghost use Rattle.nextest_run_events_json.specs.ReadBack as back;

use crate::form::{JsonForm, RunEvents};
use crate::json_error::JsonError;
use nextest_config_elements_choices::{LeakTimeoutResult, SlowTimeoutResult};
use nextest_json::{Fault, Form, JsonValue, text, truth};
use nextest_text::Text;
use serde_json::Value;
use std::alloc::{AllocError, Global};

// A number of 32 bits with sign.
fn whole_of(value: &JsonValue<'_, '_>) -> Option<i32>
    ensures { result ≡ read.whole_of (data_of value.now) }
{
    match value.as_i64() {
        Some(number) if i64::from(i32::MIN) <= number && number <= i64::from(i32::MAX) => {
            Some(number as i32)
        }
        _ => None,
    }
}

impl Form<RunEvents> for i32 {
    ghost reading = { read.whole };

    fn from_value(alloc: Global, value: &JsonValue<'_, '_>) -> Result<i32, Fault> {
        match whole_of(value) {
            Some(number) => Ok(number),
            None => Err(Fault::here(alloc)),
        }
    }
}

impl JsonForm for i32 {
    ghost form = { form_of.whole };

    ghost fits = { FitsSigned w32 };

    ghost read_back = { back.whole_back };

    fn to_json(&self, _alloc: Global) -> Result<Value, AllocError>
        ensures { IsOkAnd result (λ written. view written ≡ form_of.whole self.now) }
    {
        Ok(Value::from(*self))
    }

    fn from_json(_alloc: Global, value: &Value) -> Result<i32, JsonError>
        ensures gives { Gives result (value_of (read.whole (view value.now))) }
        ensures no_memory { result ≢ Err JsonError.OutOfMemory }
    {
        whole_of(&JsonValue::of_tree(value)).ok_or(JsonError::BadJson)
    }
}

impl Form<RunEvents> for bool {
    ghost reading = { read.truth };

    fn from_value(alloc: Global, value: &JsonValue<'_, '_>) -> Result<bool, Fault> {
        truth(alloc, value)
    }
}

impl JsonForm for bool {
    ghost form = { boolean };

    ghost fits = { λ _. ⊤ };

    ghost read_back = { back.truth_back };

    fn to_json(&self, _alloc: Global) -> Result<Value, AllocError>
        ensures { IsOkAnd result (λ written. view written ≡ boolean self.now) }
    {
        Ok(Value::Bool(*self))
    }

    fn from_json(_alloc: Global, value: &Value) -> Result<bool, JsonError>
        ensures gives { Gives result (value_of (read.truth (view value.now))) }
        ensures no_memory { result ≢ Err JsonError.OutOfMemory }
    {
        value.as_bool().ok_or(JsonError::BadJson)
    }
}

impl Form<RunEvents> for Text {
    ghost reading = { text };

    fn from_value(alloc: Global, value: &JsonValue<'_, '_>) -> Result<Text, Fault> {
        text(alloc, value)
    }
}

impl JsonForm for Text {
    ghost form = { string };

    ghost fits = { λ _. ⊤ };

    ghost read_back = { back.text_back };

    fn to_json(&self, alloc: Global) -> Result<Value, AllocError> {
        Value::try_from_str(alloc, self.as_str())
    }
}

// How a leak is judged.
fn leak_of(value: &JsonValue<'_, '_>) -> Option<LeakTimeoutResult>
    ensures { result ≡ read.leak_in (data_of value.now) }
{
    match value.as_str()? {
        "pass" => Some(LeakTimeoutResult::Pass),
        "fail" => Some(LeakTimeoutResult::Fail),
        _ => None,
    }
}

impl Form<RunEvents> for LeakTimeoutResult {
    ghost reading = { read.leak };

    fn from_value(alloc: Global, value: &JsonValue<'_, '_>) -> Result<LeakTimeoutResult, Fault> {
        match leak_of(value) {
            Some(judged) => Ok(judged),
            None => Err(Fault::here(alloc)),
        }
    }
}

impl JsonForm for LeakTimeoutResult {
    ghost form = { form_of.leak };

    ghost fits = { λ _. ⊤ };

    ghost read_back = { back.leak_back };

    fn to_json(&self, alloc: Global) -> Result<Value, AllocError> {
        match self {
            LeakTimeoutResult::Pass => Value::try_from_str(alloc, "pass"),
            LeakTimeoutResult::Fail => Value::try_from_str(alloc, "fail"),
        }
    }

    fn from_json(_alloc: Global, value: &Value) -> Result<LeakTimeoutResult, JsonError>
        ensures gives { Gives result (value_of (read.leak (view value.now))) }
        ensures no_memory { result ≢ Err JsonError.OutOfMemory }
    {
        leak_of(&JsonValue::of_tree(value)).ok_or(JsonError::BadJson)
    }
}

// How a timeout is judged.
fn timeout_of(value: &JsonValue<'_, '_>) -> Option<SlowTimeoutResult>
    ensures { result ≡ read.timeout_in (data_of value.now) }
{
    match value.as_str()? {
        "pass" => Some(SlowTimeoutResult::Pass),
        "fail" => Some(SlowTimeoutResult::Fail),
        _ => None,
    }
}

impl Form<RunEvents> for SlowTimeoutResult {
    ghost reading = { read.timeout };

    fn from_value(alloc: Global, value: &JsonValue<'_, '_>) -> Result<SlowTimeoutResult, Fault> {
        match timeout_of(value) {
            Some(judged) => Ok(judged),
            None => Err(Fault::here(alloc)),
        }
    }
}

impl JsonForm for SlowTimeoutResult {
    ghost form = { form_of.timeout };

    ghost fits = { λ _. ⊤ };

    ghost read_back = { back.timeout_back };

    fn to_json(&self, alloc: Global) -> Result<Value, AllocError> {
        match self {
            SlowTimeoutResult::Pass => Value::try_from_str(alloc, "pass"),
            SlowTimeoutResult::Fail => Value::try_from_str(alloc, "fail"),
        }
    }

    fn from_json(_alloc: Global, value: &Value) -> Result<SlowTimeoutResult, JsonError>
        ensures gives { Gives result (value_of (read.timeout (view value.now))) }
        ensures no_memory { result ≢ Err JsonError.OutOfMemory }
    {
        timeout_of(&JsonValue::of_tree(value)).ok_or(JsonError::BadJson)
    }
}

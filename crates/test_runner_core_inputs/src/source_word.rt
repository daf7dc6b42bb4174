// The word of a source's kind.
ghost use Rattle.test_runner_core_inputs.specs.Reading as read;
ghost use Rattle.test_runner_core_inputs.specs.Values as value_of;

use crate::inputs::Inputs;
use nextest_json::{Fault, Form, JsonValue};
use std::alloc::Global;

// The word of a source's kind.
#[derive(Clone, Copy)]
pub(crate) enum SourceWord {
    Tool,
    Explicit,
    Discovered,
}

impl Form<Inputs> for SourceWord {
    ghost reading = { read.leaf value_of.source_word };

    fn from_value(alloc: Global, value: &JsonValue<'_, '_>) -> Result<SourceWord, Fault> {
        let Some(word) = value.as_str() else {
            return Err(Fault::here(alloc));
        };
        match word {
            "tool" => Ok(SourceWord::Tool),
            "explicit" => Ok(SourceWord::Explicit),
            "discovered" => Ok(SourceWord::Discovered),
            _ => Err(Fault::here(alloc)),
        }
    }
}

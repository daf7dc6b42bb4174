// How a text is read as a document.
ghost use Rattle.std.specs.Prelude.{◌≡◌};
ghost use Rattle.nextest_json.specs.Documents.{whole, Reads};
ghost use Rattle.nextest_json.specs.Seen.{data_of};

use super::{DocumentError, JsonDocument, JsonMemory};
use crate::range::is_in_range;
use crate::value::JsonValue;
use json::{Error, Reader, Value};
use std::alloc::Global;

// How deep lists and objects may nest.
const MAX_DEPTH: usize = 127;

impl<'a> JsonDocument<'a> {
    /// The document that a text is. An `Err` says that the text is no JSON, or that there was no
    /// memory.
    pub fn parse(
        alloc: Global,
        text: &'a str,
        memory: &'a mut JsonMemory,
    ) -> Result<JsonDocument<'a>, DocumentError>
        ensures { Reads text.now result }
    {
        let mut reader = Reader::new(text, &mut memory.scratch)?;
        let root = match Value::read(alloc, &mut reader, MAX_DEPTH) {
            Ok(root) => root,
            Err(Error::Invalid) => return Err(DocumentError::Syntax),
            Err(_) => return Err(DocumentError::OutOfMemory),
        };
        if reader.next().is_some() {
            return Err(DocumentError::Syntax);
        }
        if is_in_range(&root) {
            Ok(JsonDocument { root })
        } else {
            Err(DocumentError::Syntax)
        }
    }

    /// The value that the whole text is.
    pub fn root(&self) -> JsonValue<'_, 'a>
        ensures { data_of result ≡ whole self.now }
    {
        JsonValue::of_document(&self.root)
    }
}

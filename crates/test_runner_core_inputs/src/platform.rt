// The platforms that are built on and for.
ghost use Rattle.std.specs.Prelude.{◌≡◌};
ghost use Rattle.nextest_json.specs.Seen.{data_of};
ghost use Rattle.nextest_json.specs.Calls.{Gives};
ghost use Rattle.test_runner_core_inputs.specs.Reading as read;

use crate::inputs::Inputs;
use nextest_json::{Fault, Form, JsonValue, element, has_items, required};
use nextest_text::{Listing, Text};
use std::alloc::Global;

/// What is known of a platform.
#[derive(Clone, Debug)]
pub struct FactRecord {
    /// Its name.
    pub name: Text,
    /// The value that it is about, where it is about one.
    pub value: Option<Text>,
    /// Whether it holds.
    pub holds: bool,
}

impl Drop for FactRecord {
    fn drop(self) {
        let Self {
            name: _,
            value: _,
            holds: _,
        } = self;
    }
}

/// A platform, not yet checked.
#[derive(Clone, Debug)]
pub struct PlatformRecord {
    /// Its triple.
    pub triple: Text,
    /// What is known of it.
    pub facts: Listing<FactRecord>,
}

impl Drop for PlatformRecord {
    fn drop(self) {
        let Self {
            triple: _,
            facts: _,
        } = self;
    }
}

impl PlatformRecord {
    // No triple and no facts, which takes no memory.
    pub(crate) fn empty(alloc: Global) -> PlatformRecord
        ensures { result ≡ read.no_platform }
    {
        PlatformRecord {
            triple: Text::new(alloc),
            facts: Listing::new(alloc),
        }
    }
}

impl Form<Inputs> for FactRecord {
    ghost reading = { read.fact_of };

    fn from_value(alloc: Global, value: &JsonValue<'_, '_>) -> Result<FactRecord, Fault> {
        if has_items(value, 2) {
            return Ok(FactRecord {
                name: element(alloc, value, 0)?,
                value: None,
                holds: element(alloc, value, 1)?,
            });
        }
        if !has_items(value, 3) {
            return Err(Fault::here(alloc));
        }
        Ok(FactRecord {
            name: element(alloc, value, 0)?,
            value: Some(element(alloc, value, 1)?),
            holds: element(alloc, value, 2)?,
        })
    }
}

impl Form<Inputs> for PlatformRecord {
    ghost reading = { read.platform_of };

    fn from_value(alloc: Global, value: &JsonValue<'_, '_>) -> Result<PlatformRecord, Fault> {
        if !value.is_object() {
            return Err(Fault::here(alloc));
        }
        Ok(PlatformRecord {
            triple: required(alloc, value, "triple")?,
            facts: required(alloc, value, "facts")?,
        })
    }
}

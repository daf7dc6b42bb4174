// The sources of the configuration.
ghost use Rattle.std.specs.Prelude.{◌≡◌};
ghost use Rattle.nextest_json.specs.Seen.{data_of};
ghost use Rattle.nextest_json.specs.Calls.{Gives};
ghost use Rattle.test_runner_core_inputs.specs.Reading as read;

use crate::inputs::Inputs;
use crate::leaves::{OnlyTrue, UndividedText};
use crate::source_word::SourceWord;
use nextest_config_elements_identifiers::ConfigSourceKind;
use nextest_config_resolution_sources::{ConfigSource, ConfigSourceOutcome};
use nextest_json::{Fault, Form, JsonValue, has_member, required};
use std::alloc::Global;

// The kind of a source.
fn kind_of_source(alloc: Global, source: &JsonValue<'_, '_>) -> Result<ConfigSourceKind, Fault>
    ensures { Gives result (read.kind_of_source (data_of source.now)) }
{
    let word: SourceWord = required(alloc, source, "kind")?;
    match word {
        SourceWord::Tool => Ok(ConfigSourceKind::Tool(required(alloc, source, "tool")?)),
        SourceWord::Explicit => Ok(ConfigSourceKind::ExplicitRepository),
        SourceWord::Discovered => Ok(ConfigSourceKind::DiscoveredRepository),
    }
}

// What came of reading a source, told in one of three forms.
fn outcome_of(alloc: Global, source: &JsonValue<'_, '_>) -> Result<ConfigSourceOutcome, Fault>
    ensures { Gives result (read.outcome_of (data_of source.now)) }
{
    let forms = (
        has_member(source, "text"),
        has_member(source, "missing"),
        has_member(source, "failed"),
    );
    match forms {
        (true, false, false) => Ok(ConfigSourceOutcome::Text(required(alloc, source, "text")?)),
        (false, true, false) => {
            let _missing: OnlyTrue = required(alloc, source, "missing")?;
            Ok(ConfigSourceOutcome::NotFound)
        }
        (false, false, true) => Ok(ConfigSourceOutcome::Failed(required(alloc, source, "failed")?)),
        _ => Err(Fault::here(alloc)),
    }
}

impl Form<Inputs> for ConfigSource {
    ghost reading = { read.source_of };

    fn from_value(alloc: Global, value: &JsonValue<'_, '_>) -> Result<ConfigSource, Fault> {
        if !value.is_object() {
            return Err(Fault::here(alloc));
        }
        let kind = kind_of_source(alloc, value)?;
        let path: UndividedText = required(alloc, value, "path")?;
        Ok(ConfigSource {
            kind,
            path: path.into_text(),
            outcome: outcome_of(alloc, value)?,
        })
    }
}

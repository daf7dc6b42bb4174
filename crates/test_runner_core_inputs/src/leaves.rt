// The parts that have no parts.
ghost use Rattle.test_runner_core_inputs.specs.Reading as read;
ghost use Rattle.test_runner_core_inputs.specs.Values as value_of;

use crate::inputs::Inputs;
use nextest_config_elements_choices::NextestRunMode;
use nextest_config_elements_identifiers::{InvalidIdentifier, ToolName};
use nextest_json::{Fault, Form, JsonValue, text, truth};
use nextest_text::Text;
use nextest_version::{PlainVersion, VersionError};
use std::alloc::Global;
use std::marker::Model;
use test_runner_core_workspace::{BinaryKind, BuildPlatform, has_separator};

impl Form<Inputs> for Text {
    ghost reading = { read.text };

    fn from_value(alloc: Global, value: &JsonValue<'_, '_>) -> Result<Text, Fault> {
        text(alloc, value)
    }
}

impl Form<Inputs> for bool {
    ghost reading = { read.leaf value_of.truth };

    fn from_value(alloc: Global, value: &JsonValue<'_, '_>) -> Result<bool, Fault> {
        truth(alloc, value)
    }
}

impl Form<Inputs> for PlainVersion {
    ghost reading = { read.leaf value_of.version };

    fn from_value(alloc: Global, value: &JsonValue<'_, '_>) -> Result<PlainVersion, Fault> {
        let Some(text) = value.as_str() else {
            return Err(Fault::here(alloc));
        };
        match PlainVersion::parse(alloc, text) {
            Ok(version) => Ok(version),
            Err(VersionError::NoVersion) => Err(Fault::here(alloc)),
            Err(VersionError::OutOfMemory) => Err(Fault::OutOfMemory),
        }
    }
}

impl Form<Inputs> for BinaryKind {
    ghost reading = { read.leaf value_of.kind };

    fn from_value(alloc: Global, value: &JsonValue<'_, '_>) -> Result<BinaryKind, Fault> {
        let Some(word) = value.as_str() else {
            return Err(Fault::here(alloc));
        };
        match word {
            "lib" => Ok(BinaryKind::Lib),
            "test" => Ok(BinaryKind::Test),
            "bench" => Ok(BinaryKind::Bench),
            "bin" => Ok(BinaryKind::Bin),
            "example" => Ok(BinaryKind::Example),
            "proc-macro" => Ok(BinaryKind::ProcMacro),
            _ => Err(Fault::here(alloc)),
        }
    }
}

impl Form<Inputs> for BuildPlatform {
    ghost reading = { read.leaf value_of.platform };

    fn from_value(alloc: Global, value: &JsonValue<'_, '_>) -> Result<BuildPlatform, Fault> {
        let Some(word) = value.as_str() else {
            return Err(Fault::here(alloc));
        };
        match word {
            "host" => Ok(BuildPlatform::Host),
            "target" => Ok(BuildPlatform::Target),
            _ => Err(Fault::here(alloc)),
        }
    }
}

impl Form<Inputs> for NextestRunMode {
    ghost reading = { read.leaf value_of.mode };

    fn from_value(alloc: Global, value: &JsonValue<'_, '_>) -> Result<NextestRunMode, Fault> {
        let Some(word) = value.as_str() else {
            return Err(Fault::here(alloc));
        };
        match word {
            "test" => Ok(NextestRunMode::Test),
            "benchmark" => Ok(NextestRunMode::Benchmark),
            _ => Err(Fault::here(alloc)),
        }
    }
}

// A text without tab, line feed and carriage return.
#[derive(Drop)]
pub(crate) struct UndividedText {
    text: Text,
}

impl Model for UndividedText {
    ghost use Rattle.std.specs.Prelude.{List, ℕ};

    ghost Value = { List ℕ };

    ghost view = { λ it. it.text };
}

impl UndividedText {
    ghost use Rattle.std.specs.Prelude.{◌≡◌};

    pub(crate) fn into_text(self) -> Text
        ensures { result ≡ self }
    {
        let UndividedText { text } = self;
        text
    }
}

impl Form<Inputs> for UndividedText {
    ghost reading = { read.leaf value_of.undivided_text_of };

    fn from_value(alloc: Global, value: &JsonValue<'_, '_>) -> Result<UndividedText, Fault> {
        let Some(text) = value.as_str() else {
            return Err(Fault::here(alloc));
        };
        if has_separator(text) {
            return Err(Fault::here(alloc));
        }
        Ok(UndividedText {
            text: Text::from_str(alloc, text)?,
        })
    }
}

// The value true.
#[derive(Drop)]
pub(crate) struct OnlyTrue;

impl Form<Inputs> for OnlyTrue {
    ghost reading = { read.leaf value_of.only_true };

    fn from_value(alloc: Global, value: &JsonValue<'_, '_>) -> Result<OnlyTrue, Fault> {
        match value.as_bool() {
            Some(true) => Ok(OnlyTrue),
            _ => Err(Fault::here(alloc)),
        }
    }
}

// A number from 1 on.
#[derive(Drop)]
pub(crate) struct Positive {
    count: u64,
}

impl Model for Positive {
    ghost use Rattle.std.specs.Prelude.{ℕ};

    ghost Value = { ℕ };

    ghost view = { λ it. it.count };
}

impl Positive {
    ghost use Rattle.std.specs.Prelude.{◌≡◌};

    pub(crate) fn one() -> Positive
        ensures { result ≡ 1 }
    {
        Positive { count: 1 }
    }

    pub(crate) fn get(&self) -> u64
        ensures { result ≡ self.now }
    {
        self.count
    }
}

impl Form<Inputs> for Positive {
    ghost reading = { read.leaf value_of.positive };

    fn from_value(alloc: Global, value: &JsonValue<'_, '_>) -> Result<Positive, Fault> {
        match value.as_u64() {
            Some(count) if count > 0 => Ok(Positive { count }),
            _ => Err(Fault::here(alloc)),
        }
    }
}

impl Form<Inputs> for ToolName {
    ghost reading = { read.leaf value_of.tool };

    fn from_value(alloc: Global, value: &JsonValue<'_, '_>) -> Result<ToolName, Fault> {
        let Some(name) = value.as_str() else {
            return Err(Fault::here(alloc));
        };
        match ToolName::new(alloc, name) {
            Ok(name) => Ok(name),
            Err(InvalidIdentifier::OutOfMemory) => Err(Fault::OutOfMemory),
            Err(_) => Err(Fault::here(alloc)),
        }
    }
}

// The inputs of a run.
ghost use Rattle.std.specs.Prelude.{◌≡◌, codes};
ghost use Rattle.nextest_json.specs.Seen.{data_of};
ghost use Rattle.nextest_json.specs.Calls.{Gives};
ghost use Rattle.test_runner_core_inputs.specs.Calls.{Parses, Reads};
ghost use Rattle.test_runner_core_inputs.specs.Given as given;
ghost use Rattle.test_runner_core_inputs.specs.Reading as read;

use crate::inputs_error::{InputsError, InputsRefusal};
use crate::leaves::Positive;
use crate::platform::PlatformRecord;
use nextest_config_elements_choices::NextestRunMode;
use nextest_config_resolution_sources::ConfigSource;
use nextest_json::{
    DocumentError, Fault, Form, JsonDocument, JsonMemory, JsonValue, PathStep, defaulted, optional,
    required,
};
use nextest_text::{Listing, Text};
use nextest_version::PlainVersion;
use std::alloc::Global;
use test_runner_core_workspace::WorkspaceRecord;

/// The most bytes that inputs may have.
pub const MAX_INPUTS_LEN: usize = 1 << 24;

/// The inputs of a run.
#[derive(Clone, Debug)]
pub struct Inputs {
    /// The packages and test binaries, not yet checked.
    pub workspace: WorkspaceRecord,
    /// The sources of the configuration; `from_json` takes no path of one with a tab, a line feed
    /// or a carriage return in it.
    pub sources: Listing<ConfigSource>,
    /// The version that the configuration's demands are judged by.
    pub current_version: PlainVersion,
    /// The name of the chosen profile.
    pub profile: Text,
    /// What is run.
    pub mode: NextestRunMode,
    /// The platform that is built on, not yet checked.
    pub host: PlatformRecord,
    /// The platform that is built for, where it is another, not yet checked.
    pub target: Option<PlatformRecord>,
    /// The filterset that is to hold on each test, where there is one.
    pub filterset: Option<Text>,
    /// Whether the profile's default filter is left aside.
    pub ignore_default_filter: bool,
    /// Whether demands on the version are left aside.
    pub override_version_check: bool,
    /// The number of processors, at least 1 in what `from_json` gives.
    pub processors: u64,
    /// The root of the workspace.
    pub root: Text,
}

impl Drop for Inputs {
    fn drop(self) {
        let Self {
            workspace: _,
            sources: _,
            current_version: _,
            profile: _,
            mode: _,
            host: _,
            target: _,
            filterset: _,
            ignore_default_filter: _,
            override_version_check: _,
            processors: _,
            root: _,
        } = self;
    }
}

impl Form<Inputs> for Inputs {
    ghost reading = { read.inputs_of };

    fn from_value(alloc: Global, value: &JsonValue<'_, '_>) -> Result<Inputs, Fault> {
        if !value.is_object() {
            return Err(Fault::here(alloc).below(PathStep::Name("workspace")));
        }
        Ok(Inputs {
            workspace: required(alloc, value, "workspace")?,
            sources: required(alloc, value, "sources")?,
            current_version: required(alloc, value, "current_version")?,
            profile: profile_of(alloc, value)?,
            mode: defaulted(alloc, value, "mode", NextestRunMode::Test)?,
            host: defaulted(alloc, value, "host", PlatformRecord::empty(alloc))?,
            target: optional(alloc, value, "target")?,
            filterset: optional(alloc, value, "filterset")?,
            ignore_default_filter: defaulted(alloc, value, "ignore_default_filter", false)?,
            override_version_check: defaulted(alloc, value, "override_version_check", false)?,
            processors: defaulted(alloc, value, "processors", Positive::one())?.get(),
            root: defaulted(alloc, value, "root", Text::new(alloc))?,
        })
    }
}

// The name of the chosen profile.
fn profile_of(alloc: Global, inputs: &JsonValue<'_, '_>) -> Result<Text, Fault>
    ensures { Gives result
        (read.defaulted (codes "profile") read.text (codes "default") (data_of inputs.now)) }
{
    match optional(alloc, inputs, "profile")? {
        Some(profile) => Ok(profile),
        None => Ok(Text::from_str(alloc, "default")?),
    }
}

impl Inputs {
    /// The inputs that `bytes` are: one JSON object in UTF-8, at most 16,777,216 bytes. Null is
    /// absent, other fields are read past, and of repeated fields the last counts. An `Err` says
    /// that the bytes are no JSON, or where the first thing stands, in the written order, that is
    /// missing, ill-typed or not allowed, or that there was no memory, which says nothing of the
    /// bytes.
    pub fn from_json(alloc: Global, bytes: &[u8]) -> Result<Inputs, InputsError>
        ensures exact { Reads bytes.now result }
    {
        let mut memory = JsonMemory::new(alloc);
        let document = document_of(alloc, bytes, &mut memory)?;
        match Inputs::from_value(alloc, &document.root()) {
            Ok(inputs) => Ok(inputs),
            Err(Fault::At(path)) => Err(InputsError::Refused(InputsRefusal::Field(path.dotted(
                alloc,
            )?))),
            Err(Fault::OutOfMemory) => Err(InputsError::OutOfMemory),
        }
    }
}

// The JSON that bytes are.
fn document_of<'a>(
    alloc: Global,
    bytes: &'a [u8],
    memory: &'a mut JsonMemory,
) -> Result<JsonDocument<'a>, InputsError>
    ensures { Parses result (given.value_of bytes.now) }
{
    if bytes.len() > MAX_INPUTS_LEN {
        return Err(InputsError::Refused(InputsRefusal::Syntax));
    }
    let Ok(text) = str::from_utf8(bytes) else {
        return Err(InputsError::Refused(InputsRefusal::Syntax));
    };
    match JsonDocument::parse(alloc, text, memory) {
        Ok(document) => Ok(document),
        Err(DocumentError::Syntax) => Err(InputsError::Refused(InputsRefusal::Syntax)),
        Err(DocumentError::OutOfMemory) => Err(InputsError::OutOfMemory),
    }
}

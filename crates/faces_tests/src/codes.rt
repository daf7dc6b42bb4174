// What became of bytes, by a code, and what of the promises of the faces shows in it.
ghost use Rattle.std.specs.Prelude.{◌≡◌, ◌≢◌, IfOk, IfSome};
ghost use Rattle.nextest_filtering.specs.Grammar.{IsFilterset};
ghost use Rattle.nextest_filtering.specs.Tree.{Tree};
ghost use Rattle.test_runner_core.specs.PlatformGrammar.{IsSpec};
ghost use Rattle.test_runner_core.specs.PlatformSpecs.{Spec};

use nextest_config_resolution::{
    ConfigSource, ConfigSourceKind, ConfigSourceOutcome, DEFAULT_PROFILE, FeatureSet, LoadError,
    NextestConfig, ProfileError,
};
use nextest_filtering::{Filterset, PackageGraph, ParseContext, Reading, Text, read};
use std::alloc::{AllocError, Global};
use test_runner_core::{
    JudgeFault, Listing, MemoryReader, MemoryWriter, PlatformFacts, PlatformSpec,
    PlatformSpecError, judge_stream,
};

// The bytes are what they should be.
const ACCEPTED: u8 = 0;

// A read failed; a report didn't fit into `ROOM`.
const UNREAD: u8 = 1;

const UNWRITTEN: u8 = 2;

/// There was no memory.
pub(crate) const NO_MEMORY: u8 = 3;

/// The bytes are not what they should be.
pub(crate) const REFUSED: u8 = 96;

/// Something isn't as it is promised.
pub(crate) const BROKEN: u8 = 255;

// How many bytes a report may have.
const ROOM: usize = 1_048_576;

// The one source of a configuration.
const PATH: &str = "nextest.toml";

// Inputs of three tests and a setup script, in which a failing test is tried again.
const INPUTS: &[u8] =
    b"{\"workspace\":{\"packages\":[{\"id\":\"p\",\"name\":\"p\"}],\"links\":[],\"binaries\":[{\"id\":\"p\",\"name\":\"p\",\"package\":\"p\",\"kind\":\"lib\",\"platform\":\"target\",\"tests\":[\"a\",\"b\",\"c\"]}]},\"sources\":[{\"kind\":\"explicit\",\"path\":\"n\",\"text\":\"experimental = ['setup-scripts']\\nscripts.setup.s.command = 's'\\n[profile.default]\\nretries = 2\\nfail-fast = { max-fail = 3 }\\nsuccess-output = 'final'\\nfailure-output = 'immediate-final'\\n[[profile.default.overrides]]\\nfilter = 'test(b)'\\nretries = 1\\nfail-weight = 2\\nflaky-result = 'fail'\\n[[profile.default.scripts]]\\nfilter = 'all()'\\nsetup = 's'\\n\"}],\"current_version\":\"0.9.100\"}\n";

// A configuration whose filters are filtersets.
type Config = NextestConfig<Filterset, PlatformSpec>;

/// What became of a stream, if it did in pieces of 1 and 7 bytes too.
pub(crate) fn of_stream(alloc: Global, stream: &[u8]) -> u8 {
    match told_alike(alloc, stream) {
        Ok(code) if is_code(code) => code,
        Ok(_) => BROKEN,
        Err(_) => NO_MEMORY,
    }
}

/// The stream of the fixed inputs and a log.
pub(crate) fn behind_inputs(alloc: Global, log: &[u8]) -> Result<Vec<u8>, AllocError> {
    let mut stream = Vec::new(alloc);
    stream.extend_from_slice(INPUTS)?;
    stream.extend_from_slice(log)?;
    Ok(stream)
}

/// What became of the text of a configuration.
pub(crate) fn of_configuration(alloc: Global, text: &str) -> u8 {
    loaded(alloc, text).unwrap_or(NO_MEMORY)
}

/// What became of the text of a filterset.
pub(crate) fn of_filterset(alloc: Global, text: &str) -> u8
    ensures accepted { result ≡ 0 → (tree : Tree) × IsFilterset text.now tree }
{
    read_back(alloc, text).unwrap_or(NO_MEMORY)
}

/// What became of the text of a platform spec.
pub(crate) fn of_spec(alloc: Global, text: &str) -> u8
    ensures kept { result ≢ 255 }
    ensures accepted { result ≡ 0 → (it : Spec) × IsSpec text.now it }
{
    match PlatformSpec::parse(alloc, text) {
        Ok(spec) => evaluated(alloc, &spec).unwrap_or(NO_MEMORY),
        Err(PlatformSpecError::BadSpec { offset }) if offset <= text.len() => REFUSED,
        Err(PlatformSpecError::BadSpec { .. }) => BROKEN,
        Err(PlatformSpecError::OutOfMemory) => NO_MEMORY,
    }
}

// Whether a code is that of a run, or of one that ended for want of room or of memory.
fn is_code(code: u8) -> bool {
    matches!(code, 0 | 4 | 92 | 96 | 100 | 105 | UNWRITTEN | NO_MEMORY)
}

// The code of a stream that is read and told in pieces, and what is told.
fn told(alloc: Global, stream: &[u8], piece: usize) -> Result<(u8, MemoryWriter), AllocError> {
    let mut input = MemoryReader::new(stream, piece);
    let mut report = MemoryWriter::new(alloc, ROOM, piece)?;
    let code = match judge_stream(alloc, &mut input, &mut report) {
        Ok(status) => status,
        Err(JudgeFault::Read(_)) => UNREAD,
        Err(JudgeFault::Write(_)) => UNWRITTEN,
        Err(JudgeFault::Memory) => NO_MEMORY,
    };
    Ok((code, report))
}

// The code of a stream, where pieces of 1 and 7 bytes have the same, and the same report. One that
// failed has a prefix of it.
fn told_alike(alloc: Global, stream: &[u8]) -> Result<u8, AllocError> {
    let (code, report) = told(alloc, stream, usize::MAX)?;
    for piece in [1, 7] {
        let (other, told) = told(alloc, stream, piece)?;
        if other == NO_MEMORY {
            return Ok(NO_MEMORY);
        }
        if other != code || code != UNWRITTEN && told.written() != report.written() {
            return Ok(BROKEN);
        }
    }
    Ok(code)
}

// What became of the text of a filterset. One that is written without a sign, and begins with one
// by an escape, needn't be read back.
fn read_back(alloc: Global, text: &str) -> Result<u8, AllocError>
    ensures { IfOk result (λ code. code ≡ 0 → (tree : Tree) × IsFilterset text.now tree) }
{
    let Some(first) = printed(alloc, text)? else {
        return Ok(REFUSED);
    };
    match printed(alloc, first.as_str())? {
        Some(second) if second.as_str() == first.as_str() => Ok(ACCEPTED),
        None if text.contains("\\u{") => Ok(ACCEPTED),
        _ => Ok(BROKEN),
    }
}

// What a filterset prints; none where the text has a fault.
fn printed(alloc: Global, text: &str) -> Result<Option<String>, AllocError>
    ensures { IfOk result (λ it. IfSome it (λ _. (tree : Tree) × IsFilterset text.now tree)) }
{
    let Reading { tree, faults } = read(alloc, text)?;
    match tree {
        Some(tree) if faults.is_empty() => Ok(Some(tree.to_text(alloc)?)),
        _ => Ok(None),
    }
}

// What became of the text of a configuration.
fn loaded(alloc: Global, text: &str) -> Result<u8, AllocError> {
    let source = ConfigSource {
        kind: ConfigSourceKind::ExplicitRepository,
        path: Text::from_str(alloc, PATH)?,
        outcome: ConfigSourceOutcome::Text(Text::from_str(alloc, text)?),
    };
    let features = FeatureSet {
        setup_scripts: true,
        wrapper_scripts: true,
        benchmarks: true,
    };
    let Ok(graph) = PackageGraph::new(alloc, &[], &[]) else {
        return Ok(NO_MEMORY);
    };
    let workspace = ParseContext::new(alloc, graph)?;
    match Config::from_sources(alloc, "", &workspace, &[source], features) {
        Ok(config) => Ok(has_default(alloc, &config)),
        Err(LoadError::Refused(_)) => Ok(REFUSED),
        Err(LoadError::OutOfMemory) => Ok(NO_MEMORY),
    }
}

// Whether a configuration has a default profile, by a code.
fn has_default(alloc: Global, config: &Config) -> u8 {
    match config.profile(alloc, DEFAULT_PROFILE) {
        Ok(_) => ACCEPTED,
        Err(ProfileError::NotFound(_)) => BROKEN,
        Err(ProfileError::OutOfMemory) => NO_MEMORY,
    }
}

// Whether a spec and its copy have one value where nothing is known of a platform, by a code.
fn evaluated(alloc: Global, spec: &PlatformSpec) -> Result<u8, AllocError>
    ensures { IfOk result (λ code. code ≢ 255) }
{
    let triple = Text::from_str(alloc, "x86_64-unknown-linux-gnu")?;
    let Ok(facts) = PlatformFacts::new(alloc, triple, Listing::new(alloc)) else {
        return Ok(NO_MEMORY);
    };
    if spec.clone()?.eval(&facts) == spec.eval(&facts) {
        Ok(ACCEPTED)
    } else {
        Ok(BROKEN)
    }
}

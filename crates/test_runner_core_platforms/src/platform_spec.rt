// Platform specs.
ghost use Rattle.std.specs.Prelude.{◌≡◌};
ghost use Rattle.test_runner_core_platforms.specs.Grammar.{IsSpec};
ghost use Rattle.test_runner_core_platforms.specs.Meaning.{HasValue, value_of};
ghost use Rattle.test_runner_core_platforms.specs.Parsing.{EndsCfg, FindsCfg, FindsSpec, OnlyTriple, Parses};
ghost use Rattle.test_runner_core_platforms.specs.Trees.{spec_of};

use crate::condition::Condition;
use crate::fact::PlatformFacts;
use crate::parser::condition;
use crate::platform_spec_error::PlatformSpecError;
use crate::span::{Span, token};
use crate::stop::Stop;
use nextest_config_resolution_filters::{SpecError, Specs};
use nextest_filtering_arguments::skip_blanks;
use nextest_text::Text;
use std::alloc::{AllocError, Global};

/// On which platforms something applies: those of one triple, or those on which a condition holds.
pub struct PlatformSpec {
    kind: Kind,
}

impl Drop for PlatformSpec {
    fn drop(self) {
        let PlatformSpec { kind: _ } = self;
    }
}

impl Clone for PlatformSpec {
    ghost use Rattle.std.specs.Prelude.{◌≡◌};

    ghost is_clone = { λ original copy. copy ≡ original };

    fn clone(&self) -> Result<PlatformSpec, AllocError> {
        Ok(PlatformSpec {
            kind: self.kind.clone()?,
        })
    }
}

// The two kinds of specs.
#[derive(Drop)]
enum Kind {
    // The platforms of one triple.
    Triple(Text),
    // Those on which a condition holds.
    Cfg(Condition),
}

impl Clone for Kind {
    ghost use Rattle.std.specs.Prelude.{◌≡◌};

    ghost is_clone = { λ original copy. copy ≡ original };

    fn clone(&self) -> Result<Kind, AllocError> {
        match self {
            Kind::Triple(name) => Ok(Kind::Triple(name.clone()?)),
            Kind::Cfg(it) => Ok(Kind::Cfg(it.clone()?)),
        }
    }
}

// What follows `cfg` and its `(`.
fn behind_cfg(text: &str) -> Option<&str>
    ensures { FindsCfg text.now result }
{
    token(token(text, "cfg")?, "(")
}

// The spec of a condition behind `cfg` and its `(`, which ends the text.
fn cfg(alloc: Global, text: &str) -> Result<PlatformSpec, Stop>
    ensures { FindsSpec (EndsCfg text.now) result }
{
    let (it, behind) = condition(alloc, text)?;
    let Some(rest) = token(behind, ")") else {
        return Err(Stop::Bad(behind.len()));
    };
    if !skip_blanks(rest).is_empty() {
        return Err(Stop::Bad(rest.len()));
    }
    Ok(PlatformSpec {
        kind: Kind::Cfg(it),
    })
}

// The spec of a triple, which is the whole text.
fn triple(alloc: Global, text: &str) -> Result<PlatformSpec, Stop>
    ensures { FindsSpec (OnlyTriple text.now) result }
{
    let (name, rest) = Span::Triple.split(skip_blanks(text));
    if name.is_empty() {
        return Err(Stop::Bad(rest.len()));
    }
    if !skip_blanks(rest).is_empty() {
        return Err(Stop::Bad(rest.len()));
    }
    let name = Text::from_str(alloc, name)?;
    Ok(PlatformSpec {
        kind: Kind::Triple(name),
    })
}

// The spec that the text is.
fn read(alloc: Global, text: &str) -> Result<PlatformSpec, Stop>
    ensures { FindsSpec (IsSpec text.now) result }
{
    match behind_cfg(text) {
        Some(opened) => cfg(alloc, opened),
        None => triple(alloc, text),
    }
}

impl PlatformSpec {
    /// The spec that the text is. Refused where the text is none, with a place in the text, in
    /// bytes. Or there was no memory, which says nothing of the text.
    pub fn parse(alloc: Global, text: &str) -> Result<PlatformSpec, PlatformSpecError>
        ensures { Parses text.now result }
    {
        match read(alloc, text) {
            Ok(spec) => Ok(spec),
            Err(Stop::Bad(left)) => Err(PlatformSpecError::BadSpec {
                offset: text.len().saturating_sub(left),
            }),
            Err(Stop::Memory) => Err(PlatformSpecError::OutOfMemory),
        }
    }

    /// Whether it holds on a platform of which these facts are known; `None` where they don't tell.
    /// A triple is always known. It takes no memory.
    pub fn eval(&self, facts: &PlatformFacts) -> Option<bool>
        ensures only { HasValue facts.now (spec_of self.now) result }
        ensures value { result ≡ value_of facts.now (spec_of self.now) }
    {
        match &self.kind {
            Kind::Triple(name) => Some(name.as_str() == facts.triple()),
            Kind::Cfg(it) => it.value(facts),
        }
    }
}

impl Specs for PlatformSpec {
    ghost use Rattle.test_runner_core_platforms.specs.Grammar.{IsSpec};
    ghost use Rattle.test_runner_core_platforms.specs.Laws.{platform_spec_laws};
    ghost use Rattle.test_runner_core_platforms.specs.Meaning.{value_of};
    ghost use Rattle.test_runner_core_platforms.specs.Trees.{spec_of};

    type Facts = PlatformFacts;

    ghost is_parsed = { λ text it. IsSpec text (spec_of it) };

    ghost value_on = { λ it facts. value_of facts (spec_of it) };

    fn parse(alloc: Global, text: &str) -> Result<PlatformSpec, SpecError> {
        match PlatformSpec::parse(alloc, text) {
            Ok(spec) => Ok(spec),
            Err(PlatformSpecError::BadSpec { .. }) => Err(SpecError::Refused),
            Err(PlatformSpecError::OutOfMemory) => Err(SpecError::OutOfMemory),
        }
    }

    fn eval(&self, facts: &PlatformFacts) -> Option<bool> {
        PlatformSpec::eval(self, facts)
    }

    ghost laws = { platform_spec_laws };
}

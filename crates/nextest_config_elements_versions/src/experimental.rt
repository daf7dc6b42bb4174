// The features that sources ask for.
ghost use Rattle.std.specs.Prelude.{◌≡◌, [], ◌∷◌, ◌++◌, IfOk, OnOk, OnErr};
ghost use Rattle.nextest_config_elements_versions.specs.Features.{unknown_in};
ghost use Rattle.nextest_config_elements_versions.specs.Sources.{experimental_of, merged_features, no_experimental, unknown_features_of};

use crate::feature::{ConfigExperimental, FeatureSet, known_in};
use crate::features::push_text;
use crate::origin::VersionOrigin;
use nextest_config_elements_choices::BadText;
use nextest_text::{Listing, Text};
use std::alloc::{AllocError, Global};
use std::mem;

/// A source that asks for features which aren't known.
#[derive(Clone, Debug, PartialEq, Eq)]
pub struct UnknownFeatures {
    /// The source.
    pub source: VersionOrigin,
    /// Those names, in their order.
    pub names: Listing<Text>,
}

// One call drops it, whoever holds it.
impl Drop for UnknownFeatures {
    fn drop(self) {
        let Self {
            source: _,
            names: _,
        } = self;
    }
}

/// The features that a list of sources asks for.
#[derive(Clone, Debug, PartialEq, Eq, Drop)]
pub struct ExperimentalConfig {
    known: FeatureSet,
    unknown: Listing<UnknownFeatures>,
}

impl ExperimentalConfig {
    /// Those that are known.
    pub fn known(&self) -> FeatureSet
        ensures { result ≡ self.now.known }
    {
        self.known
    }

    /// The sources that ask for others, in their order.
    pub fn source_errors(&self) -> &[UnknownFeatures]
        ensures { result.now ≡ self.now.unknown }
    {
        self.unknown.as_slice()
    }

    // What no sources ask for.
    pub(crate) fn none(alloc: Global) -> ExperimentalConfig
        ensures { result ≡ no_experimental }
    {
        ExperimentalConfig {
            known: FeatureSet::default(),
            unknown: Listing::new(alloc),
        }
    }

    // What one source asks for.
    pub(crate) fn of_source(
        alloc: Global,
        names: &[Text],
        source: &VersionOrigin,
    ) -> Result<ExperimentalConfig, AllocError>
        ensures { IfOk result (λ it. it ≡ experimental_of names.now source.now) }
    {
        let unknown = unknown_in(alloc, names)?;
        Ok(ExperimentalConfig {
            known: known_in(names),
            unknown: unknown_of(alloc, source, unknown)?,
        })
    }

    /// Puts what another part of a list asks for behind it. An `Err` says that there is no memory,
    /// and leaves it as it was.
    pub fn merge(&mut self, other: ExperimentalConfig) -> Result<(), AllocError>
        ensures merged { OnOk result (self.new ≡ merged_features self.old other) }
        ensures err { OnErr result (self.new ≡ self.old) }
    {
        let ExperimentalConfig { known, unknown } = other;
        append(&mut self.unknown, unknown)?;
        self.known = self.known.union(known);
        Ok(())
    }
}

// A source with the names of features that it asks for and that aren't known, if there are any.
fn unknown_of(
    alloc: Global,
    source: &VersionOrigin,
    names: Listing<Text>,
) -> Result<Listing<UnknownFeatures>, AllocError>
    ensures { IfOk result (λ it. it ≡ unknown_features_of source.now names) }
{
    let mut unknown = Listing::new(alloc);
    if names.is_empty() {
        return Ok(unknown);
    }
    let source = source.clone()?;
    unknown.push(UnknownFeatures { source, names })?;
    Ok(unknown)
}

// Puts a list behind another, which stays as it was where there is no memory.
fn append(
    front: &mut Listing<UnknownFeatures>,
    behind: Listing<UnknownFeatures>,
) -> Result<(), AllocError>
    ensures ok { OnOk result (front.new ≡ front.old ++ behind) }
    ensures err { OnErr result (front.new ≡ front.old) }
{
    let mut behind = Vec::from(behind);
    let empty = Listing::new(*behind.allocator());
    let mut whole = Vec::from(mem::replace(front, empty));
    let appended = whole.append(&mut behind);
    *front = Listing::from(whole);
    appended
}

// The names that are no feature's, in their order.
fn unknown_in(alloc: Global, names: &[Text]) -> Result<Listing<Text>, AllocError>
    ensures { IfOk result (λ it. it ≡ unknown_in names.now) }
{
    let mut unknown = Listing::new(alloc);
    for name in names {
        push_unknown(alloc, &mut unknown, name.as_str())?;
    }
    Ok(unknown)
}

// Adds a name that is no feature's.
fn push_unknown(alloc: Global, unknown: &mut Listing<Text>, name: &str) -> Result<(), AllocError>
    ensures { IfOk result (λ _. unknown.new ≡ unknown.old ++ unknown_in (name.now ∷ [])) }
{
    match ConfigExperimental::from_text(name) {
        Ok(_) => Ok(()),
        Err(BadText) => push_text(alloc, unknown, name),
    }
}

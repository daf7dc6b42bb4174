// What is known of the platforms of inputs.
ghost use Rattle.std.specs.Prelude.{◌≡◌, IfOk, map, unwrap_or};
ghost use Rattle.nextest_config_resolution_profiles.specs.Platforms.{built_for, built_on};
ghost use Rattle.test_runner_core_settings.specs.Calls.{KnowsPlatform, KnowsTarget};
ghost use Rattle.test_runner_core_settings.specs.Platforms as words;

use nextest_config_resolution_profiles::BuildPlatforms;
use nextest_text::Listing;
use std::alloc::{AllocError, Global};
use test_runner_core_inputs::{FactRecord, PlatformRecord};
use test_runner_core_platforms::{Fact, PlatformFacts, PlatformFactsError};

// What is known of a platform.
pub(crate) fn facts_of(
    alloc: Global,
    platform: &PlatformRecord,
) -> Result<PlatformFacts, PlatformFactsError>
    ensures { KnowsPlatform platform.now result }
{
    let facts = owned_facts(alloc, platform.facts.as_slice())?;
    PlatformFacts::new(alloc, platform.triple.clone()?, facts)
}

// What is known of the platform that is built for, where it is another than the one that is built
// on.
pub(crate) fn target_of(
    alloc: Global,
    target: &Option<PlatformRecord>,
) -> Result<Option<PlatformFacts>, PlatformFactsError>
    ensures { KnowsTarget target.now result }
{
    match target {
        Some(platform) => Ok(Some(facts_of(alloc, platform)?)),
        None => Ok(None),
    }
}

// The platforms of a build, where this is known of the one that it is built on, and this of the one
// that it is built for.
pub(crate) fn platforms_of<'f>(
    host: &'f PlatformFacts,
    target: &'f Option<PlatformFacts>,
) -> BuildPlatforms<'f, PlatformFacts>
    ensures host { built_on result ≡ host.now }
    ensures target { built_for result ≡ unwrap_or target.now host.now }
{
    match target {
        Some(target) => BuildPlatforms {
            host,
            target: Some(target),
        },
        None => BuildPlatforms { host, target: None },
    }
}

// Facts, owned.
fn owned_facts(alloc: Global, facts: &[FactRecord]) -> Result<Listing<Fact>, AllocError>
    ensures { IfOk result (λ it. it ≡ map words.fact_of facts.now) }
{
    let mut owned = Listing::new(alloc);
    for fact in facts {
        owned.push(owned_fact(fact)?)?;
    }
    Ok(owned)
}

// A fact, owned.
fn owned_fact(fact: &FactRecord) -> Result<Fact, AllocError>
    ensures { IfOk result (λ it. it ≡ words.fact_of fact.now) }
{
    Ok(Fact {
        name: fact.name.clone()?,
        value: fact.value.clone()?,
        holds: fact.holds,
    })
}

// Which sources count.
ghost use Rattle.std.specs.Prelude.{◌≡◌, ◌++◌, [], ◌∷◌, map, option_map, IfOk};
ghost use Rattle.std.specs.List.{filter};
ghost use Rattle.nextest_config_resolution_sources.specs.Counting as words;
ghost use Rattle.nextest_config_resolution_sources.specs.declared.class.Class.TheVariants as class;

use crate::class::{Class, is_of};
use crate::source::ConfigSource;
use std::alloc::{AllocError, Global};

/// The sources that count, lent, the lowest first: those of the tools, of which the first handed in
/// is the highest, and above them one of the repository's, the first that was named, else the first
/// that was looked for. It fails only on allocation.
#[tactic(auto, using(crate::proofs::Turning::turned_with))]
pub fn counted<'s>(
    alloc: Global,
    sources: &'s [ConfigSource],
) -> Result<Vec<&'s ConfigSource>, AllocError>
    ensures { IfOk result
        (λ found. map (λ it. it.now) found.items ≡ words.counting_sources sources.now) }
{
    let mut found = tools(alloc, sources)?;
    found.reverse();
    push_repository(&mut found, sources)?;
    Ok(found)
}

// Adds the repository's source that counts.
fn push_repository<'s>(
    found: &mut Vec<&'s ConfigSource>,
    sources: &'s [ConfigSource],
) -> Result<(), AllocError>
    ensures { IfOk result (λ _. map (λ it. it.now) found.new.items ≡ map
        (λ it. it.now) found.old.items ++ words.list_of_option (words.repository sources.now)) }
{
    match repository(sources) {
        Some(source) => Ok(found.push(source)?),
        None => Ok(()),
    }
}

// The tools' sources, in their order.
fn tools<'s>(
    alloc: Global,
    sources: &'s [ConfigSource],
) -> Result<Vec<&'s ConfigSource>, AllocError>
    ensures { IfOk result
        (λ found. map (λ it. it.now) found.items ≡ filter (words.is_of class.Tool) sources.now) }
{
    let mut found = Vec::new(alloc);
    for source in sources {
        push_tool(&mut found, source)?;
    }
    Ok(found)
}

// Adds a source that is a tool's.
fn push_tool<'s>(
    found: &mut Vec<&'s ConfigSource>,
    source: &'s ConfigSource,
) -> Result<(), AllocError>
    ensures { IfOk result (λ _. map (λ it. it.now) found.new.items
        ≡ map (λ it. it.now) found.old.items ++ filter (words.is_of class.Tool) (source.now ∷ [])) }
{
    if is_of(Class::Tool, source) {
        found.push(source)?;
    }
    Ok(())
}

// The repository's source that counts.
fn repository(sources: &[ConfigSource]) -> Option<&ConfigSource>
    ensures { option_map (λ it. it.now) result ≡ words.repository sources.now }
{
    match first_of(Class::Explicit, sources) {
        Some(source) => Some(source),
        None => first_of(Class::Discovered, sources),
    }
}

// The first source of a class.
fn first_of(wanted: Class, sources: &[ConfigSource]) -> Option<&ConfigSource>
    ensures { option_map (λ it. it.now) result ≡ words.first_of wanted sources.now }
{
    for source in sources {
        if is_of(wanted, source) {
            return Some(source);
        }
    }
    None
}

// The ids of packages and binaries.
ghost use Rattle.std.specs.Prelude.{◌≡◌, ◌==◌, ◌&&◌, ◌||◌, ℕ, List, IfOk, map, length};
ghost use Rattle.std.specs.List.{list_all, list_any};
ghost use Rattle.test_runner_core_workspace.specs.Ids.{lent_texts, has_text};
ghost use Rattle.test_runner_core_workspace.specs.Workspace as refusing;

use crate::record::{Binary, Link, Package};
use memchr::memchr3;
use std::alloc::{AllocError, Global};
use std::collections::BTreeSet;

// The packages' ids.
pub(crate) fn ids_of_packages<'a>(
    alloc: Global,
    packages: &'a [Package],
) -> Result<Vec<&'a str>, AllocError>
    ensures { IfOk result (λ ids. lent_texts ids.items ≡ map (λ p. p.id) packages.now) }
{
    let mut ids = Vec::new(alloc);
    for package in packages {
        ids.push(package.id.as_str())?;
    }
    Ok(ids)
}

// The binaries' ids.
pub(crate) fn ids_of_binaries<'a>(
    alloc: Global,
    binaries: &'a [Binary],
) -> Result<Vec<&'a str>, AllocError>
    ensures { IfOk result (λ ids. lent_texts ids.items ≡ map (λ b. b.id) binaries.now) }
{
    let mut ids = Vec::new(alloc);
    for binary in binaries {
        ids.push(binary.id.as_str())?;
    }
    Ok(ids)
}

// The set of the ids.
pub(crate) fn set_of<'a>(alloc: Global, ids: &[&'a str]) -> Result<BTreeSet<&'a str>, AllocError>
    ensures { IfOk result
        (λ set. (text : List ℕ) → has_text set text ≡ refusing.is_among (lent_texts ids.now) text) }
{
    let mut set = BTreeSet::new(alloc);
    for id in ids {
        set.insert(*id)?;
    }
    Ok(set)
}

// Whether an id stands twice.
pub(crate) fn has_repeated(alloc: Global, ids: &[&str]) -> Result<bool, AllocError>
    ensures { IfOk result (λ repeated. repeated ≡ refusing.has_repeat (lent_texts ids.now)) }
{
    let mut set = BTreeSet::new(alloc);
    for id in ids {
        if !set.insert(*id)? {
            return Ok(true);
        }
    }
    Ok(false)
}

// Whether both ends of a link are known.
fn is_known_link(known: &BTreeSet<&str>, link: &Link) -> bool
    ensures { result ≡ (has_text known.now link.now.from && has_text known.now link.now.to) }
{
    known.contains(link.from.as_str()) && known.contains(link.to.as_str())
}

// Whether both ends of each link are known.
pub(crate) fn links_are_known(known: &BTreeSet<&str>, links: &[Link]) -> bool
    ensures { result
        ≡ list_all (λ link. has_text known.now link.from && has_text known.now link.to) links.now }
{
    links.iter().all(|link| is_known_link(known, link))
}

// Whether each binary's package is known.
pub(crate) fn packages_are_known(known: &BTreeSet<&str>, binaries: &[Binary]) -> bool
    ensures { result ≡ list_all (λ binary. has_text known.now binary.package) binaries.now }
{
    binaries
        .iter()
        .all(|binary| known.contains(binary.package.as_str()))
}

/// Whether a text contains a tab, a line feed or a carriage return, which divide what a log and a
/// report have.
pub fn has_separator(text: &str) -> bool
    ensures { result ≡ refusing.has_separator text.now }
{
    memchr3(b'\t', b'\n', b'\r', text.as_bytes()).is_some()
}

// Whether an id is empty or contains a tab, a line feed or a carriage return.
fn is_bad(id: &str) -> bool
    ensures { result ≡ refusing.is_bad_id id.now }
{
    id.is_empty() || has_separator(id)
}

// Whether some id is bad.
pub(crate) fn has_bad(ids: &[&str]) -> bool
    ensures { result ≡ list_any (λ id. refusing.is_bad_id id.now) ids.now }
{
    ids.iter().any(|id| is_bad(id))
}

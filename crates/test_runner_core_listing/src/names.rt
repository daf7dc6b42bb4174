// The names that a binary answers.
ghost use Rattle.std.specs.Prelude.{◌≡◌, [], IfOk};
ghost use Rattle.std.specs.List.{IsDistinct};
ghost use Rattle.std.specs.Str.{bytes_eq};
ghost use Rattle.nextest_text.specs.Parts.{lent_texts};
ghost use Rattle.test_runner_core_listing.specs.Listing.{refused_name};

use crate::distinct::differ;
use crate::listing_fault::ListingFault;
use nextest_text::Texts;
use std::alloc::{AllocError, Global};
use std::collections::HashSet;
use test_runner_core_plan::{KeyedState, TextsDigest};
use test_runner_core_workspace::has_separator;

// Why the names of a binary are refused, if they are.
pub(crate) fn refusal(alloc: Global, names: &Texts) -> Result<Option<ListingFault>, AllocError>
    ensures { IfOk result (λ refused. refused ≡ refused_name [] names.now) }
{
    let names = names.to_strs()?;
    if differ(alloc, names.as_slice())? {
        return Ok(refusal_of_distinct(names.as_slice()));
    }
    refusal_of_any(alloc, names.as_slice())
}

// Why the names of a binary are refused, if they are, where none stands twice.
fn refusal_of_distinct(names: &[&str]) -> Option<ListingFault>
    requires { IsDistinct bytes_eq (lent_texts names.now) }
    ensures { result ≡ refused_name [] (lent_texts names.now) }
{
    for name in names {
        if name.is_empty() {
            return Some(ListingFault::EmptyTestName);
        }
        if has_separator(name) {
            return Some(ListingFault::BadTestName);
        }
    }
    None
}

// Why the names of a binary are refused, if they are.
fn refusal_of_any(alloc: Global, names: &[&str]) -> Result<Option<ListingFault>, AllocError>
    ensures { IfOk result (λ refused. refused ≡ refused_name [] (lent_texts names.now)) }
{
    let mut before = HashSet::with_capacity_and_hasher(alloc, names.len(), state_of(names))?;
    for name in names {
        if name.is_empty() {
            return Ok(Some(ListingFault::EmptyTestName));
        }
        if has_separator(name) {
            return Ok(Some(ListingFault::BadTestName));
        }
        if !before.insert(*name)? {
            return Ok(Some(ListingFault::RepeatedTest));
        }
    }
    Ok(None)
}

// Hashes these names by a digest of all of them.
fn state_of(names: &[&str]) -> KeyedState {
    let mut digest = TextsDigest::new();
    for name in names {
        digest.add(name);
    }
    digest.into_state()
}

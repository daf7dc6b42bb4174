// Platform specs, and what is known of a platform.
use crate::configs::BAR;
use crate::page::Page;
use crate::parts::{Word, list_of, two};
use crate::{ok, some};
use nextest_text::{Listing, Text};
use std::alloc::Global;
use test_runner_core_platforms::{
    Fact, PlatformFacts, PlatformFactsError, PlatformSpec, PlatformSpecError,
};

// The triple of a platform, what is known of it, each with a comma behind it, and a spec: whether
// it holds there.
pub(crate) fn platform_specs(page: &mut Page, input: &str) -> Option<()> {
    let (triple, rest) = two(input, BAR);
    let (known, spec) = two(rest, BAR);
    let facts = some!(list_of::<Fact>(page.alloc, known, ","));
    let triple = ok!(Text::from_str(page.alloc, triple));
    match PlatformFacts::new(page.alloc, triple, Listing::from(facts)) {
        Ok(facts) => return told(page, spec, &ok!(facts.clone())),
        Err(PlatformFactsError::RepeatedFact) => page.show("repeated"),
        Err(PlatformFactsError::OutOfMemory) => return None,
    }
    Some(())
}

// Whether a spec holds on a platform of which this is known.
fn told(page: &mut Page, spec: &str, facts: &PlatformFacts) -> Option<()> {
    match PlatformSpec::parse(page.alloc, spec) {
        Ok(spec) => page.debug(ok!(spec.clone()).eval(facts)),
        Err(PlatformSpecError::BadSpec { .. }) => page.show("refused"),
        Err(PlatformSpecError::OutOfMemory) => return None,
    }
    Some(())
}

// A fact: `NAME:HOLDS`, or `NAME=VALUE:HOLDS`.
impl Word for Fact {
    fn of_word(alloc: Global, word: &str) -> Option<Fact> {
        let (key, holds) = some!(word.rsplit_once(':'));
        let (name, value) = match key.split_once('=') {
            Some((name, value)) => (name, Some(ok!(Text::from_str(alloc, value)))),
            None => (key, None),
        };
        Some(Fact {
            name: ok!(Text::from_str(alloc, name)),
            value,
            holds: holds == "true",
        })
    }
}

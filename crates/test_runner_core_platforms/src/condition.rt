// Conditions on platforms.
ghost use Rattle.std.specs.Prelude.{◌≡◌, ◌<◌, length};
ghost use Rattle.test_runner_core_platforms.specs.Evaluating.{IsApart, IsEither, Leads};
ghost use Rattle.test_runner_core_platforms.specs.Flat.{condition_of, AreFlat, IsFlat};
ghost use Rattle.test_runner_core_platforms.specs.Meaning.{condition_value};

use crate::fact::PlatformFacts;
use crate::outcomes::Outcomes;
use crate::part::{Joint, Part, split_child, split_last};
use nextest_text::Listing;
use std::alloc::AllocError;
use std::marker::Model;

/// What holds on a platform or doesn't. In a clause it is its parts, and what they make up is
/// `condition_of` them. No part holds another, so to drop it takes no more stack where it is nested
/// deeper.
#[derive(Drop)]
pub(crate) struct Condition {
    parts: Listing<Part>,
}

impl Model for Condition {
    ghost use Rattle.std.specs.Prelude.{List};
    ghost use Rattle.test_runner_core_platforms.specs.Flat.{IsFlat};
    ghost use Rattle.test_runner_core_platforms.specs.declared.part.Part as words;

    ghost Value = { List words.Part };

    ghost view = { λ it. it.parts };

    ghost invariant = { λ it. IsFlat it.parts };
}

impl Clone for Condition {
    ghost use Rattle.std.specs.Prelude.{◌≡◌};

    ghost is_clone = { λ original copy. copy ≡ original };

    fn clone(&self) -> Result<Condition, AllocError> {
        Ok(Condition {
            parts: self.parts.clone()?,
        })
    }
}

impl Condition {
    /// What these parts make up.
    pub(crate) fn of_parts(parts: Vec<Part>) -> Condition
        requires flat { IsFlat parts.items }
        ensures { result ≡ parts.items }
    {
        Condition {
            parts: Listing::from(parts),
        }
    }

    /// Whether it holds on a platform; `None` where the facts don't tell. It takes no memory.
    pub(crate) fn value(&self, facts: &PlatformFacts) -> Option<bool>
        ensures { result ≡ condition_value facts.now.known (condition_of self.now) }
    {
        value(self.parts.as_slice(), facts)
    }
}

// Where the value of a condition comes from.
enum Way<'p> {
    // It is known.
    Known(Option<bool>),
    // It is told by that of a part of it, by these outcomes.
    Inside(Outcomes, &'p [Part]),
}

// The value of a condition. It is called again for the conditions of an `all` or an `any`, but for
// one with the most parts, with which the loop goes on. Each of the others has at most half of the
// parts, so no more than 64 such calls are open at a time, however deep the condition is nested.
#[cycle(value)]
fn value(parts: &[Part], facts: &PlatformFacts) -> Option<bool>
    requires flat { IsFlat parts.now }
    ensures { result ≡ condition_value facts.now.known (condition_of parts.now) }
{
    let mut outcomes = Outcomes::of_itself();
    let mut rest = parts;
    loop {
        match leads(rest, facts) {
            Way::Known(value) => return outcomes.at(value),
            Way::Inside(inner, inside) => {
                outcomes = outcomes.through(inner);
                rest = inside;
            }
        }
    }
}

// Where the value of a condition comes from.
#[cycle(value)]
fn leads<'p>(parts: &'p [Part], facts: &PlatformFacts) -> Way<'p>
    requires flat { IsFlat parts.now }
    ensures { Leads facts.now.known parts.now result }
{
    let (part, inside) = split_last(parts);
    match part {
        Part::Fact(name) => Way::Known(facts.answer(name.as_str(), None)),
        Part::FactValue(name, value) => {
            Way::Known(facts.answer(name.as_str(), Some(value.as_str())))
        }
        Part::Not(_) => Way::Inside(Outcomes::of_negation(), inside),
        Part::Joined(joint, _) => {
            if inside.is_empty() {
                return Way::Known(joint.of_none());
            }
            let (others, largest) = apart(*joint, inside, facts);
            Way::Inside(Outcomes::of_joint(*joint, others), largest)
        }
    }
}

// The larger one, and the other.
fn by_len<'p>(one: &'p [Part], other: &'p [Part]) -> (&'p [Part], &'p [Part])
    ensures { IsEither one.now other.now result.0.now result.1.now }
{
    if one.len() < other.len() {
        (other, one)
    } else {
        (one, other)
    }
}

// What the conditions of an `all` or an `any` come to but one with the most parts, and the parts of
// that one.
#[cycle(value)]
fn apart<'p>(joint: Joint, parts: &'p [Part], facts: &PlatformFacts) -> (Option<bool>, &'p [Part])
    requires some { 0 < length parts.now }
    requires flat { AreFlat parts.now }
    ensures { IsApart joint facts.now.known parts.now result.0 result.1.now }
{
    let (ahead, last) = split_child(parts);
    let mut rest = ahead;
    let mut largest = last;
    let mut found = joint.of_none();
    while !rest.is_empty() {
        let (before, child) = split_child(rest);
        let (larger, smaller) = by_len(child, largest);
        found = joint.join(found, value(smaller, facts));
        largest = larger;
        rest = before;
    }
    (found, largest)
}

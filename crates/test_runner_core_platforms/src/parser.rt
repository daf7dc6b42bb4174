// Conditions, as they are read.
ghost use Rattle.std.specs.Prelude.{◌≤◌, length};
ghost use Rattle.test_runner_core_platforms.specs.Grammar.{IsCondition};
ghost use Rattle.test_runner_core_platforms.specs.Parsing.{FindsCondition, FindsFact, FindsStart, Goes, IsOperation};
ghost use Rattle.test_runner_core_platforms.specs.Waiting.{IsAhead, IsBehind};

use crate::condition::Condition;
use crate::opened::Operation;
use crate::part::{Joint, Part};
use crate::reading::Reading;
use crate::span::{name, token, value};
use crate::stop::Stop;
use nextest_text::Text;
use std::alloc::Global;

// What a condition begins with.
enum Start {
    // It is this part alone.
    Whole(Part),
    // It is an operation, up to its `(`.
    Operation(Operation),
}

// A place in a text that a condition is read of.
pub(crate) enum Place<'i> {
    // A condition is to follow; in an `all` or an `any`, or their `)`.
    Ahead(&'i str),
    // A condition ends here.
    Behind(&'i str),
}

// The fact of that name with the value that comes next, and what follows it.
fn with_value<'i>(alloc: Global, name: &str, text: &'i str) -> Result<(Start, &'i str), Stop>
    ensures { FindsFact name.now text.now result }
{
    let Some((value, rest)) = value(text) else {
        return Err(Stop::Bad(text.len()));
    };
    let name = Text::from_str(alloc, name)?;
    let value = Text::from_str(alloc, value)?;
    Ok((Start::Whole(Part::FactValue(name, value)), rest))
}

// The operation of that name.
fn operation(name: &str) -> Option<Operation>
    ensures { IsOperation name.now result }
{
    if name == "not" {
        return Some(Operation::Not);
    }
    if name == "all" {
        return Some(Operation::Joined(Joint::All));
    }
    if name == "any" {
        return Some(Operation::Joined(Joint::Any));
    }
    None
}

// What the condition that comes next begins with, and what follows.
fn begin<'i>(alloc: Global, text: &'i str) -> Result<(Start, &'i str), Stop>
    ensures { FindsStart text.now result }
{
    let Some((name, rest)) = name(text) else {
        return Err(Stop::Bad(text.len()));
    };
    if let Some(inside) = token(rest, "(") {
        return match operation(name) {
            Some(operation) => Ok((Start::Operation(operation), inside)),
            None => Err(Stop::Bad(inside.len())),
        };
    }
    if let Some(ahead) = token(rest, "=") {
        return with_value(alloc, name, ahead);
    }
    Ok((Start::Whole(Part::Fact(Text::from_str(alloc, name)?)), rest))
}

// Reads on where a condition is to follow, up to the next place.
fn ahead<'i>(alloc: Global, reading: &mut Reading, text: &'i str) -> Result<Place<'i>, Stop>
    ensures { Goes IsAhead reading.old text.now reading.new result }
{
    if let Some(rest) = reading.sign(text, ")") {
        reading.close()?;
        return Ok(Place::Behind(rest));
    }
    let (start, rest) = begin(alloc, text)?;
    match start {
        Start::Whole(part) => {
            reading.push(part)?;
            Ok(Place::Behind(rest))
        }
        Start::Operation(operation) => {
            reading.enter(operation)?;
            Ok(Place::Ahead(rest))
        }
    }
}

// Reads on behind a condition that stands in an operation, up to the next place.
fn behind<'i>(reading: &mut Reading, text: &'i str) -> Result<Place<'i>, Stop>
    requires some { 1 ≤ length reading.old.opened }
    ensures { Goes IsBehind reading.old text.now reading.new result }
{
    if let Some(next) = reading.sign(text, ",") {
        return Ok(Place::Ahead(next));
    }
    let Some(rest) = token(text, ")") else {
        return Err(Stop::Bad(text.len()));
    };
    reading.close()?;
    Ok(Place::Behind(rest))
}

/// The condition that comes next, and what follows it. What is nested takes memory, and no stack.
pub(crate) fn condition<'i>(alloc: Global, text: &'i str) -> Result<(Condition, &'i str), Stop>
    ensures { FindsCondition (IsCondition text.now) result }
{
    let mut reading = Reading::new(alloc);
    let mut place = Place::Ahead(text);
    loop {
        match place {
            Place::Ahead(rest) => place = ahead(alloc, &mut reading, rest)?,
            Place::Behind(rest) => {
                if reading.is_whole() {
                    return Ok((reading.into_condition(), rest));
                }
                place = behind(&mut reading, rest)?;
            }
        }
    }
}

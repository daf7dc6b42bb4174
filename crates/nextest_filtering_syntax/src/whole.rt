// Filtersets: whole texts.
ghost use Rattle.std.specs.Prelude.{◌≡◌, IfOk};
ghost use Rattle.nextest_filtering_arguments.specs.Faults.{count};
ghost use Rattle.nextest_filtering_syntax.specs.Places.{ArePlaced, StandsWhole};
ghost use Rattle.nextest_filtering_syntax.specs.Reading.{IsReadingOf, Parses, ReadsWhole};

use crate::parser::expression;
use crate::reading::{ParseError, Reading};
use crate::tree::ParsedExpr;
use nextest_filtering_arguments::{Faults, ParseSingleError, Stop, skip_blanks};
use std::alloc::{AllocError, Global};

// Reads a whole text: an expression, and nothing but blanks behind it.
fn whole(alloc: Global, faults: &mut Faults<'_>, text: &str) -> Result<ParsedExpr, Stop>
    requires whole { faults.old.input ≡ text.now }
    requires none { count faults.old ≡ 0 }
    ensures input { faults.new.input ≡ faults.old.input }
    ensures reads { ReadsWhole text.now (count faults.new) result }
    ensures placed { IfOk result (ArePlaced text.now) }
    ensures stands { count faults.new ≡ 0 → IfOk result (StandsWhole text.now) }
{
    let (tree, rest) = expression(alloc, faults, text)?;
    let ahead = skip_blanks(rest);
    if !ahead.is_empty() {
        let span = faults.span(ahead, ahead.len());
        faults.report(ParseSingleError::ExpectedEndOfExpression(span))?;
    }
    Ok(tree)
}

/// Reads a filterset, with recovery: its tree, where one could be made, and all faults. The text is
/// a filterset exactly where there is no fault, and then each predicate of the tree has the span
/// from its name's first byte to behind its `)`. With faults it has a span of the text that begins
/// with its name. `all` and `none` have none. It fails only on allocation.
pub fn read(alloc: Global, text: &str) -> Result<Reading, AllocError>
    ensures { IfOk result (λ it. IsReadingOf text.now it) }
{
    let mut faults = Faults::new(alloc, text);
    let outcome = whole(alloc, &mut faults, text);
    let hopeless = faults.is_hopeless();
    let faults = faults.into_list();
    match outcome {
        Ok(tree) => {
            if hopeless {
                Ok(Reading { tree: None, faults })
            } else {
                Ok(Reading {
                    tree: Some(tree),
                    faults,
                })
            }
        }
        Err(stop) => match stop {
            Stop::NoTree => Ok(Reading { tree: None, faults }),
            Stop::Memory => Err(AllocError),
        },
    }
}

impl ParsedExpr {
    /// The tree of a filterset; where none could be made, an `Err` has its faults. An `Err` for
    /// want of memory says nothing of the text. It is lenient: a tree that could be made in spite
    /// of faults is answered without them, so use `read` where they matter.
    pub fn parse(alloc: Global, text: &str) -> Result<ParsedExpr, ParseError>
        ensures { Parses text.now result }
    {
        let Reading { tree, faults } = read(alloc, text)?;
        match tree {
            Some(tree) => Ok(tree),
            None => Err(ParseError::Faults(faults)),
        }
    }
}

// The ends of predicates and of parentheses.
ghost use Rattle.std.specs.Prelude.{◌≡◌, ◌≤◌, ◌⊎◌, ◌∷◌, ◌++◌, ◌+◌, ℕ, List, IfOk};
ghost use Rattle.nextest_filtering_ast.specs.Grammar.{after_blanks};
ghost use Rattle.nextest_filtering_arguments.specs.Faults.{IsSuffix, count};
ghost use Rattle.nextest_filtering_syntax.specs.Parsing.{IsClosed};

use nextest_filtering_arguments::{Faults, ParseSingleError, behind, skip_blanks};
use std::alloc::AllocError;

/// What follows the `)` that comes next; where none does, a fault says so, and the text goes on as
/// if it stood.
pub(crate) fn close<'i>(faults: &mut Faults<'_>, text: &'i str) -> Result<&'i str, AllocError>
    requires suffix { IsSuffix text.now faults.old.input }
    ensures input { faults.new.input ≡ faults.old.input }
    ensures closes { IfOk result
        (λ rest. IsClosed text.now (count faults.old) (count faults.new) rest.now) }
{
    let ahead = skip_blanks(text);
    if let Some(rest) = behind(ahead, ")") {
        return Ok(rest);
    }
    let span = faults.span(ahead, 0);
    faults.report(ParseSingleError::ExpectedCloseParenthesis(span))?;
    Ok(text)
}

/// What stands before the first `)`, and what begins with it; all, and nothing, where there is
/// none.
pub(crate) fn split_close(text: &str) -> (&str, &str)
    ensures { text.now ≡ result.0.now ++ result.1.now }
{
    match text.find(')') {
        Some(at) => text.split_at(at),
        None => (text, ""),
    }
}

/// What follows the `)` behind an argument; a comma before it is told as a fault, and all up to the
/// `)` is passed over.
pub(crate) fn close_argument<'i>(
    faults: &mut Faults<'_>,
    text: &'i str,
) -> Result<&'i str, AllocError>
    requires suffix { IsSuffix text.now faults.old.input }
    ensures input { faults.new.input ≡ faults.old.input }
    ensures closes { IfOk result
        (λ rest. IsClosed text.now (count faults.old) (count faults.new) rest.now) }
{
    let ahead = skip_blanks(text);
    let Some(behind_comma) = behind(ahead, ",") else {
        return close(faults, text);
    };
    let span = faults.span(ahead, 1);
    faults.report(ParseSingleError::UnexpectedComma(span))?;
    let (_, rest) = split_close(behind_comma);
    close(faults, rest)
}

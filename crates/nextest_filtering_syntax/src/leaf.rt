// Predicates: a name, and an argument in parentheses.
ghost use Rattle.std.specs.Prelude.{◌≡◌, ◌≤◌, ◌<◌, ◌+◌, IfOk, OnOk, Err, Some, codes};
ghost use Rattle.nextest_filtering_ast.specs.Tree.{leaf_of, matching, matcher_of};
ghost use Rattle.nextest_filtering_arguments.specs.Faults.{IsSuffix, count};
ghost use Rattle.nextest_filtering_arguments.specs.Matchers.{subject_of};
ghost use Rattle.nextest_filtering_syntax.specs.declared.name.Name.TheVariants.{About, Platform};
ghost use Rattle.nextest_filtering_ast.specs.Words.{subject_word};
ghost use Rattle.nextest_filtering_syntax.specs.Names.{name_word};
ghost use Rattle.nextest_filtering_syntax.specs.Places.{ArePlaced, IsNamed, IsSpanned, Stands, span_of};
ghost use Rattle.nextest_filtering_syntax.specs.Parsing.{Anywhere, Finds, FindsArgument, ReportsFault, IsClosed, ReadsPredicate};

use crate::closing::{close, close_argument, split_close};
use crate::name::{Name, predicate_name};
use crate::tree::ParsedExpr;
use nextest_filtering_arguments::{
    Faults, ParseSingleError, Stop, Subject, behind, matcher, platform, skip_blanks,
    trim_blanks_end,
};
use nextest_filtering_ast::{NameMatcher, ParsedLeaf, SourceSpan};
use std::alloc::{AllocError, Global};

// The predicate on a subject with this matcher.
fn leaf(subject: Subject, matcher: NameMatcher, span: SourceSpan) -> ParsedLeaf
    ensures leaf { leaf_of result ≡ matching (subject_of subject) (matcher_of matcher) }
    ensures span { span_of result ≡ Some span }
{
    match subject {
        Subject::Package => ParsedLeaf::Package(matcher, span),
        Subject::Deps => ParsedLeaf::Deps(matcher, span),
        Subject::Rdeps => ParsedLeaf::Rdeps(matcher, span),
        Subject::Kind => ParsedLeaf::Kind(matcher, span),
        Subject::Binary => ParsedLeaf::Binary(matcher, span),
        Subject::BinaryId => ParsedLeaf::BinaryId(matcher, span),
        Subject::Test => ParsedLeaf::Test(matcher, span),
        Subject::Group => ParsedLeaf::Group(matcher, span),
    }
}

// The argument of a predicate on a subject, which begins at `start`, and what follows its `)`.
// Where the argument is no matcher, another predicate stands in its place.
fn about<'i>(
    alloc: Global,
    faults: &mut Faults<'_>,
    subject: Subject,
    start: &str,
    text: &'i str,
) -> Result<(ParsedExpr, &'i str), Stop>
    requires start { IsSuffix start.now faults.old.input }
    requires suffix { IsSuffix text.now start.now }
    requires named { IsNamed (subject_word (subject_of subject)) start.now text.now }
    ensures input { faults.new.input ≡ faults.old.input }
    ensures finds { FindsArgument (About subject) text.now (count faults.old)
        (count faults.new) result }
    ensures placed { IfOk result (λ it. ArePlaced faults.old.input it.0) }
    ensures spanned { IfOk result (λ it. IsSpanned faults.old.input start.now it.1.now it.0) }
{
    let (found, behind) = matcher(alloc, faults, subject, text)?;
    let rest = close_argument(faults, behind)?;
    let span = faults.span(start, start.len() - rest.len());
    let Some(matcher) = found else {
        faults.give_up();
        return Ok((ParsedExpr::Set(ParsedLeaf::None), rest));
    };
    Ok((ParsedExpr::Set(leaf(subject, matcher, span)), rest))
}

// The argument of `platform`, as that of a predicate on a subject.
fn built_for<'i>(
    alloc: Global,
    faults: &mut Faults<'_>,
    start: &str,
    text: &'i str,
) -> Result<(ParsedExpr, &'i str), Stop>
    requires start { IsSuffix start.now faults.old.input }
    requires suffix { IsSuffix text.now start.now }
    requires named { IsNamed (codes "platform") start.now text.now }
    ensures input { faults.new.input ≡ faults.old.input }
    ensures finds { FindsArgument Platform text.now (count faults.old) (count faults.new) result }
    ensures placed { IfOk result (λ it. ArePlaced faults.old.input it.0) }
    ensures spanned { IfOk result (λ it. IsSpanned faults.old.input start.now it.1.now it.0) }
{
    let (found, behind) = platform(alloc, faults, text)?;
    let rest = close_argument(faults, behind)?;
    let span = faults.span(start, start.len() - rest.len());
    let Some(platform) = found else {
        faults.give_up();
        return Ok((ParsedExpr::Set(ParsedLeaf::None), rest));
    };
    Ok((ParsedExpr::Set(ParsedLeaf::Platform(platform, span)), rest))
}

// What follows the `)` of a predicate without an argument; what stands before it is told as a
// fault.
fn no_argument<'i>(faults: &mut Faults<'_>, text: &'i str) -> Result<&'i str, AllocError>
    requires suffix { IsSuffix text.now faults.old.input }
    ensures input { faults.new.input ≡ faults.old.input }
    ensures closes { IfOk result
        (λ rest. IsClosed text.now (count faults.old) (count faults.new) rest.now) }
{
    let ahead = skip_blanks(text);
    if ahead.is_empty() {
        return close(faults, text);
    }
    if let Some(rest) = behind(ahead, ")") {
        return Ok(rest);
    }
    let (unexpected, rest) = split_close(ahead);
    let span = faults.span(ahead, trim_blanks_end(unexpected).len());
    faults.report(ParseSingleError::UnexpectedArgument(span))?;
    close(faults, rest)
}

// The argument of a predicate of that name, which begins at `start`, and what follows its `)`.
fn argument<'i>(
    alloc: Global,
    faults: &mut Faults<'_>,
    name: Name,
    start: &str,
    text: &'i str,
) -> Result<(ParsedExpr, &'i str), Stop>
    requires start { IsSuffix start.now faults.old.input }
    requires suffix { IsSuffix text.now start.now }
    requires named { IsNamed (name_word name) start.now text.now }
    ensures input { faults.new.input ≡ faults.old.input }
    ensures finds { FindsArgument name text.now (count faults.old) (count faults.new) result }
    ensures placed { IfOk result (λ it. ArePlaced faults.old.input it.0) }
    ensures spanned { IfOk result (λ it. IsSpanned faults.old.input start.now it.1.now it.0) }
{
    match name {
        Name::About(subject) => about(alloc, faults, subject, start, text),
        Name::Platform => built_for(alloc, faults, start, text),
        Name::Default => {
            let rest = no_argument(faults, text)?;
            let span = faults.span(start, start.len() - rest.len());
            Ok((ParsedExpr::Set(ParsedLeaf::Default(span)), rest))
        }
        Name::All => {
            let rest = no_argument(faults, text)?;
            Ok((ParsedExpr::Set(ParsedLeaf::All), rest))
        }
        Name::None => {
            let rest = no_argument(faults, text)?;
            Ok((ParsedExpr::Set(ParsedLeaf::None), rest))
        }
    }
}

// The predicate of that name without a `(`, which a fault tells: it stands where it takes no
// argument.
fn unopened<'i>(
    faults: &mut Faults<'_>,
    name: Name,
    start: &str,
    text: &'i str,
) -> Result<(ParsedExpr, &'i str), Stop>
    requires start { IsSuffix start.now faults.old.input }
    requires suffix { IsSuffix text.now start.now }
    requires named { IsNamed (name_word name) start.now text.now }
    ensures input { faults.new.input ≡ faults.old.input }
    ensures reported { ReportsFault (count faults.old) (count faults.new) result }
    ensures rest { IfOk result (λ it. it.1.now ≡ text.now) }
    ensures placed { IfOk result (λ it. ArePlaced faults.old.input it.0) }
    ensures spanned { IfOk result (λ it. IsSpanned faults.old.input start.now it.1.now it.0) }
{
    let place = faults.span(skip_blanks(text), 0);
    faults.report(ParseSingleError::ExpectedOpenParenthesis(place))?;
    match name {
        Name::Default => {
            let span = faults.span(start, start.len() - text.len());
            Ok((ParsedExpr::Set(ParsedLeaf::Default(span)), text))
        }
        Name::All => Ok((ParsedExpr::Set(ParsedLeaf::All), text)),
        Name::None => Ok((ParsedExpr::Set(ParsedLeaf::None), text)),
        Name::About(_) | Name::Platform => Err(Stop::NoTree),
    }
}

/// The predicate that comes next: a name, and its argument in parentheses.
pub(crate) fn predicate<'i>(
    alloc: Global,
    faults: &mut Faults<'_>,
    text: &'i str,
) -> Result<(ParsedExpr, &'i str), Stop>
    requires suffix { IsSuffix text.now faults.old.input }
    ensures input { faults.new.input ≡ faults.old.input }
    ensures finds { Finds ReadsPredicate Anywhere text.now (count faults.old)
        (count faults.new) result }
    ensures placed { IfOk result (λ it. ArePlaced faults.old.input it.0) }
    ensures stands { count faults.new ≡ count faults.old
        → IfOk result (λ it. Stands faults.old.input it.0 text.now it.1.now) }
{
    let start = skip_blanks(text);
    let Some((name, named)) = predicate_name(start) else {
        let span = faults.span(start, start.len());
        faults.report(ParseSingleError::ExpectedExpr(span))?;
        return Err(Stop::NoTree);
    };
    match behind(skip_blanks(named), "(") {
        Some(opened) => argument(alloc, faults, name, start, opened),
        None => unopened(faults, name, start, named),
    }
}

// A matcher as an argument.
ghost use Rattle.std.specs.Prelude.{◌≡◌, ◌∷◌, ℕ, List, IfOk, IfSome, IfNone};
ghost use Rattle.nextest_filtering_ast.specs.Tree.{matcher_of};
ghost use Rattle.nextest_filtering_ast.specs.Grammar.{bare, ReadsMatcher};
ghost use Rattle.nextest_filtering_arguments.specs.declared.subject.Comparing.{Comparing};
ghost use Rattle.nextest_filtering_arguments.specs.Faults.{IsSuffix, Lies, count};
ghost use Rattle.nextest_filtering_arguments.specs.Matchers.{IsArgument, FindsMatcher, IsMade, ReadsCompared, ReadsPattern, comparison_of, sign_of, subject_of};

use crate::cursor::{behind, skip_blanks};
use crate::error::ParseSingleError;
use crate::faults::Faults;
use crate::stop::Stop;
use crate::subject::{Comparing, Subject};
use crate::text::{TextArgument, text_argument};
use nextest_filtering_ast::{NameMatcher, Pattern, PatternError};
use nextest_filtering_escapes::{split_regex, unslash};
use nextest_filtering_globs::{GenericGlob, GlobConstructError};
use std::alloc::{AllocError, Global};

// The sign at the start of `text`, and what follows it.
fn sign(text: &str) -> Option<(Comparing, &str)>
    ensures some { IfSome result (λ it. text.now ≡ sign_of it.0 ∷ it.1.now) }
    ensures none { IfNone result
        ((comparing : Comparing) (rest : List ℕ) → text.now ≡ sign_of comparing ∷ rest → ⊥) }
{
    if let Some(rest) = behind(text, "=") {
        return Some((Comparing::Equal, rest));
    }
    if let Some(rest) = behind(text, "~") {
        return Some((Comparing::Contains, rest));
    }
    match behind(text, "#") {
        Some(rest) => Some((Comparing::Glob, rest)),
        None => None,
    }
}

// How a text without a sign is compared with.
fn bare(subject: Subject) -> Comparing
    ensures { comparison_of result ≡ bare (subject_of subject) }
{
    match subject {
        Subject::Kind => Comparing::Equal,
        Subject::Test => Comparing::Contains,
        _ => Comparing::Glob,
    }
}

// The matcher that compares so with the text; tells of a text that is no glob where it should be
// one.
fn made(
    alloc: Global,
    faults: &mut Faults<'_>,
    comparing: Comparing,
    implicit: bool,
    argument: TextArgument<'_>,
) -> Result<Option<NameMatcher>, AllocError>
    requires lies { Lies faults.old.input argument.span }
    ensures input { faults.new.input ≡ faults.old.input }
    ensures made { IfOk result (λ it. IsMade (comparison_of comparing) implicit argument.entry.text
        (count faults.old) (count faults.new) it) }
{
    let value = argument.text;
    match comparing {
        Comparing::Equal => Ok(Some(NameMatcher::Equal { value, implicit })),
        Comparing::Contains => Ok(Some(NameMatcher::Contains { value, implicit })),
        Comparing::Glob => match GenericGlob::new(alloc, value) {
            Ok(glob) => Ok(Some(NameMatcher::Glob { glob, implicit })),
            Err(GlobConstructError::OutOfMemory) => Err(AllocError),
            Err(GlobConstructError::InvalidGlob) => {
                faults.report(ParseSingleError::InvalidGlob(argument.span))?;
                Ok(None)
            }
        },
    }
}

// The text that comes next as a matcher, and what follows it.
fn compared<'i>(
    alloc: Global,
    faults: &mut Faults<'_>,
    comparing: Comparing,
    implicit: bool,
    text: &'i str,
) -> Result<(Option<NameMatcher>, &'i str), AllocError>
    requires suffix { IsSuffix text.now faults.old.input }
    ensures input { faults.new.input ≡ faults.old.input }
    ensures reads { IfOk result
        (λ it. IsArgument matcher_of (ReadsCompared (comparison_of comparing) implicit) text.now
        (count faults.old) (count faults.new) it.0 it.1.now) }
{
    let argument = text_argument(alloc, faults, text)?;
    let rest = argument.rest;
    let found = made(alloc, faults, comparing, implicit, argument)?;
    Ok((found, rest))
}

// The regular expression up to the next `/`, and what follows that.
fn pattern<'i>(
    alloc: Global,
    faults: &mut Faults<'_>,
    text: &'i str,
) -> Result<(Option<NameMatcher>, &'i str), Stop>
    requires suffix { IsSuffix text.now faults.old.input }
    ensures input { faults.new.input ≡ faults.old.input }
    ensures finds { FindsMatcher ReadsPattern text.now (count faults.old)
        (count faults.new) result }
{
    let Some((raw, rest)) = split_regex(text) else {
        let span = faults.span("", 0);
        faults.report(ParseSingleError::ExpectedCloseRegex(span))?;
        return Err(Stop::NoTree);
    };
    let spelled = unslash(alloc, raw)?;
    match Pattern::new(alloc, spelled.as_str()) {
        Ok(pattern) => Ok((Some(NameMatcher::Regex(pattern)), rest)),
        Err(PatternError::OutOfMemory) => Err(Stop::Memory),
        Err(PatternError::Syntax) => {
            let span = faults.span(text, raw.len());
            faults.report(ParseSingleError::InvalidRegexWithoutMessage(span))?;
            Ok((None, rest))
        }
    }
}

/// The matcher that comes next, of a predicate on that subject, and what follows it: a sign and a
/// text, a regular expression between two `/`, or a text alone, which is compared with as the
/// subject's default says. A text that should be a glob or a regular expression and is none is
/// reported, and `None` stands for the matcher then. A missing second `/` is reported too, and
/// gives `Err(NoTree)`; `Err(Memory)` says that there was no memory.
pub fn matcher<'i>(
    alloc: Global,
    faults: &mut Faults<'_>,
    subject: Subject,
    text: &'i str,
) -> Result<(Option<NameMatcher>, &'i str), Stop>
    requires suffix { IsSuffix text.now faults.old.input }
    ensures input { faults.new.input ≡ faults.old.input }
    ensures finds { FindsMatcher (ReadsMatcher (subject_of subject)) text.now (count faults.old)
        (count faults.new) result }
{
    let ahead = skip_blanks(text);
    if let Some(inside) = behind(ahead, "/") {
        return pattern(alloc, faults, inside);
    }
    if let Some((comparing, inside)) = sign(ahead) {
        return Ok(compared(alloc, faults, comparing, false, inside)?);
    }
    Ok(compared(alloc, faults, bare(subject), true, text)?)
}

// Reading the classes of a glob.
ghost use Rattle.std.specs.Prelude.{◌≡◌, ◌≤◌, ℕ, Bool, List, ◌∷◌, length, IfOk, MatchOption};
ghost use Rattle.nextest_filtering_globs.specs.declared.token.ClassRange.{ClassRange};
ghost use Rattle.nextest_filtering_globs.specs.Syntax.{class_ranges, IsUnclosed, SpellsClass, SpellsRanges};
ghost use Rattle.nextest_filtering_globs.specs.Reading.{Reads, IsFirstBracket, IsSplit, IsSigned, RangesRise};

use super::construct_error::GlobConstructError;
use super::token::ClassRange;
use std::alloc::Global;

// The first range, and what is left behind it.
fn first_range(first: char, behind: &[char]) -> (ClassRange, &[char])
    ensures range { class_ranges (first ∷ behind.now) ≡ result.0 ∷ class_ranges result.1.now }
    ensures left { length result.1.now ≤ length behind.now }
{
    match behind {
        ['-', last, left @ ..] => (ClassRange { first, last: *last }, left),
        _ => (ClassRange { first, last: first }, behind),
    }
}

// The ranges that the characters of a class are. They are refused where one falls.
fn ranges_of(alloc: Global, body: &[char]) -> Result<Vec<ClassRange>, GlobConstructError>
    ensures { RangesRise body.now result }
{
    let mut ranges = Vec::new(alloc);
    let mut left = body;
    while let Some((first, behind)) = left.split_first() {
        let (range, rest) = first_range(*first, behind);
        if range.last < range.first {
            return Err(GlobConstructError::InvalidGlob);
        }
        ranges.push(range)?;
        left = rest;
    }
    Ok(ranges)
}

// The place of the first closing bracket.
fn closing_place(text: &[char]) -> Option<usize>
    ensures { MatchOption result (IsUnclosed text.now) (λ place. IsFirstBracket text.now place) }
{
    for (place, c) in text.iter().enumerate() {
        if *c == ']' {
            return Some(place);
        }
    }
    None
}

// The characters of a class, and what stands behind its bracket.
fn split_class(text: &[char]) -> Option<(&[char], &[char])>
    ensures { MatchOption result
        ((body rest : List ℕ) → IsSplit text.now body rest → ⊥)
        (λ parts. IsSplit text.now parts.0.now parts.1.now) }
{
    let (_, behind) = text.split_first()?;
    let place = closing_place(behind)?;
    Some((&text[..place + 1], &behind[place + 1..]))
}

// The ranges of a class, and what stands behind its bracket.
fn read_ranges(
    alloc: Global,
    text: &[char],
) -> Result<(Vec<ClassRange>, &[char]), GlobConstructError>
    ensures { Reads (λ read. (read.0.items, read.1.now))
        (λ ranges rest. SpellsRanges ranges text.now rest) result }
{
    let Some((body, rest)) = split_class(text) else {
        return Err(GlobConstructError::InvalidGlob);
    };
    Ok((ranges_of(alloc, body)?, rest))
}

// Whether a class is a complement, and what stands behind the sign of that.
fn class_sign(text: &[char]) -> (bool, &[char])
    ensures { IsSigned text.now result.0 result.1.now }
{
    match text {
        ['!' | '^', inner @ ..] => (true, inner),
        _ => (false, text),
    }
}

/// A class behind its opening bracket: whether it is a complement, its ranges, and what stands
/// behind its bracket.
pub fn read_class(
    alloc: Global,
    text: &[char],
) -> Result<(bool, Vec<ClassRange>, &[char]), GlobConstructError>
    ensures exact { Reads {B = Bool × List ClassRange}
        (λ read. ((read.0, read.1.items), read.2.now))
        (λ class rest. SpellsClass class.0 class.1 text.now rest) result }
    ensures left { IfOk result (λ read. length read.2.now ≤ length text.now) }
{
    let (negated, inner) = class_sign(text);
    let (ranges, rest) = read_ranges(alloc, inner)?;
    Ok((negated, ranges, rest))
}

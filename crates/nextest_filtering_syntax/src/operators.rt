// The operators between operands, and what is taken for one.
ghost use Rattle.std.specs.Prelude.{◌≡◌, ◌⊎◌, ◌++◌, ◌∷◌, ℕ, List, true, IfOk, IfSome, IfNone};
ghost use Rattle.nextest_filtering_ast.specs.Grammar.{after_blanks, ends_word, ReadsNot, ReadsOr, ReadsJoint, Unary, Conjunction};
ghost use Rattle.nextest_filtering_ast.specs.declared.operators.NotOperator.{NotOperator};
ghost use Rattle.nextest_filtering_ast.specs.declared.operators.OrOperator.{OrOperator};
ghost use Rattle.nextest_filtering_ast.specs.declared.operators.Joint.{Joint};
ghost use Rattle.nextest_filtering_arguments.specs.Faults.{IsSuffix, count};
ghost use Rattle.nextest_filtering_syntax.specs.Parsing.{FindsOperator, Closes, ClosesConjunction};

use nextest_filtering_arguments::{
    Faults, ParseSingleError, begins_blank, behind, is_blank, skip_blanks,
};
use nextest_filtering_ast::{AndOperator, DifferenceOperator, Joint, NotOperator, OrOperator};
use std::alloc::AllocError;

// Whether a word of an operator ends before `text`.
fn ends_word(text: &str) -> bool
    ensures { result ≡ ends_word text.now }
{
    match text.as_bytes().first() {
        Some(byte) => is_blank(*byte) || *byte == b'(' || *byte == b'!',
        None => false,
    }
}

// What follows `front` at the start of `text`, where the word ends behind it.
fn behind_word<'i>(text: &'i str, front: &str) -> Option<&'i str>
    ensures some { IfSome result (λ rest. text.now ≡ front.now ++ rest.now) }
    ensures ends { IfSome result (λ rest. ends_word rest.now ≡ true) }
    ensures none { IfNone result
        ((rest : List ℕ) → text.now ≡ front.now ++ rest → ends_word rest ≡ true → ⊥) }
{
    let rest = behind(text, front)?;
    if ends_word(rest) { Some(rest) } else { None }
}

/// The negation that comes next, and what follows it.
pub(crate) fn not_operator(text: &str) -> Option<(NotOperator, &str)>
    ensures some { IfSome result (λ it. ReadsNot it.0 text.now it.1.now) }
    ensures none { IfNone result
        ((op : NotOperator) (rest : List ℕ) → ReadsNot op text.now rest → ⊥) }
{
    let ahead = skip_blanks(text);
    if let Some(rest) = behind_word(ahead, "not") {
        return Some((NotOperator::LiteralNot, rest));
    }
    match behind(ahead, "!") {
        Some(rest) => Some((NotOperator::Exclamation, rest)),
        None => None,
    }
}

// The operator of a union that comes next, and what follows it.
fn right_or(text: &str) -> Option<(OrOperator, &str)>
    ensures some { IfSome result (λ it. ReadsOr it.0 text.now it.1.now) }
    ensures none { IfNone result
        ((op : OrOperator) (rest : List ℕ) → ReadsOr op text.now rest → ⊥) }
{
    let ahead = skip_blanks(text);
    if let Some(rest) = behind_word(ahead, "or") {
        return Some((OrOperator::LiteralOr, rest));
    }
    if let Some(rest) = behind(ahead, "|") {
        return Some((OrOperator::Pipe, rest));
    }
    match behind(ahead, "+") {
        Some(rest) => Some((OrOperator::Plus, rest)),
        None => None,
    }
}

// What follows `||` or `OR` at the start of `text`.
fn wrong_or(text: &str) -> Option<&str>
    ensures some { IfSome result
        (λ rest. (text.now ≡ 124 ∷ 124 ∷ rest.now) ⊎ (text.now ≡ 79 ∷ 82 ∷ rest.now)) }
{
    if let Some(rest) = behind(text, "||") {
        return Some(rest);
    }
    match behind(text, "OR") {
        Some(rest) if begins_blank(rest) => Some(rest),
        _ => None,
    }
}

/// The operator of a union that comes next, and what follows it; `||` and `OR` are told as faults
/// and taken for `|`.
pub(crate) fn or_operator<'i>(
    faults: &mut Faults<'_>,
    text: &'i str,
) -> Result<Option<(OrOperator, &'i str)>, AllocError>
    requires suffix { IsSuffix text.now faults.old.input }
    ensures input { faults.new.input ≡ faults.old.input }
    ensures finds { IfOk result (λ it. FindsOperator ReadsOr Conjunction Closes text.now
        (count faults.old) (count faults.new) it) }
{
    let ahead = skip_blanks(text);
    let Some(rest) = wrong_or(ahead) else {
        return Ok(right_or(text));
    };
    let span = faults.span(ahead, 2);
    faults.report(ParseSingleError::InvalidOrOperator(span))?;
    Ok(Some((OrOperator::Pipe, rest)))
}

// The operator of a conjunction that comes next, and what follows it.
fn right_joint(text: &str) -> Option<(Joint, &str)>
    ensures some { IfSome result (λ it. ReadsJoint it.0 text.now it.1.now) }
    ensures none { IfNone result ((op : Joint) (rest : List ℕ) → ReadsJoint op text.now rest → ⊥) }
{
    let ahead = skip_blanks(text);
    if let Some(rest) = behind_word(ahead, "and") {
        return Some((Joint::And(AndOperator::LiteralAnd), rest));
    }
    if let Some(rest) = behind(ahead, "&") {
        return Some((Joint::And(AndOperator::Ampersand), rest));
    }
    match behind(ahead, "-") {
        Some(rest) => Some((Joint::Minus(DifferenceOperator::Minus), rest)),
        None => None,
    }
}

// How long `&&` or `AND` at the start of `text` is, and what follows it.
fn wrong_and(text: &str) -> Option<(usize, &str)>
    ensures some { IfSome result (λ it. ((text.now ≡ 38 ∷ 38 ∷ it.1.now) × (it.0 ≡ 2))
        ⊎ ((text.now ≡ 65 ∷ 78 ∷ 68 ∷ it.1.now) × (it.0 ≡ 3))) }
{
    if let Some(rest) = behind(text, "&&") {
        return Some((2, rest));
    }
    match behind(text, "AND") {
        Some(rest) if begins_blank(rest) => Some((3, rest)),
        _ => None,
    }
}

/// The operator of a conjunction that comes next, and what follows it; `&&` and `AND` are told as
/// faults and taken for `&`.
pub(crate) fn joint_operator<'i>(
    faults: &mut Faults<'_>,
    text: &'i str,
) -> Result<Option<(Joint, &'i str)>, AllocError>
    requires suffix { IsSuffix text.now faults.old.input }
    ensures input { faults.new.input ≡ faults.old.input }
    ensures finds { IfOk result (λ it. FindsOperator ReadsJoint Unary ClosesConjunction text.now
        (count faults.old) (count faults.new) it) }
{
    let ahead = skip_blanks(text);
    let Some((length, rest)) = wrong_and(ahead) else {
        return Ok(right_joint(text));
    };
    let span = faults.span(ahead, length);
    faults.report(ParseSingleError::InvalidAndOperator(span))?;
    Ok(Some((Joint::And(AndOperator::Ampersand), rest)))
}

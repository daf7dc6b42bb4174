// Expressions, from the operators that bind least to predicates.
ghost use Rattle.std.specs.Prelude.{◌≡◌, ◌<◌, ℕ, List, length, IfOk, IfSome, IfNone, codes};
ghost use Rattle.nextest_filtering_ast.specs.Tree.{negation, union, parens};
ghost use Rattle.nextest_filtering_syntax.specs.Parsed.{tree_of};
ghost use Rattle.nextest_filtering_ast.specs.Grammar.{Behind, ReadsJoint, ReadsNot, ReadsOr, Expression, joint_of};
ghost use Rattle.nextest_filtering_arguments.specs.Faults.{IsSuffix, count};
ghost use Rattle.nextest_filtering_syntax.specs.Places.{ArePlaced, Stands};
ghost use Rattle.nextest_filtering_syntax.specs.Parsing.{Closes, Finds};
ghost use Rattle.nextest_filtering_syntax.specs.Waiting.{Ascends, Descends, Follows, Has, HasConjunction, IsOpening, MakesUp, OpensNothing, TakesJoints, TakesOperands, TakesUnions};
ghost use Rattle.nextest_filtering_syntax.specs.Waiting as part;

use crate::ahead::{Ahead, Next};
use crate::closing::close;
use crate::leaf::predicate;
use crate::operators::{joint_operator, not_operator, or_operator};
use crate::tree::ParsedExpr;
use crate::waiting::{Stack, Waiting};
use nextest_filtering_arguments::{Faults, Stop, behind, skip_blanks};
use nextest_filtering_ast::{Joint, NotOperator, OrOperator};
use std::alloc::{AllocError, Global};

// Joins two operands of a union.
fn union(
    alloc: Global,
    op: OrOperator,
    left: Box<ParsedExpr>,
    right: ParsedExpr,
) -> Result<ParsedExpr, AllocError>
    ensures tree { IfOk result (λ it. tree_of it ≡ union op (tree_of left.value) (tree_of right)) }
    ensures placed { (input : List ℕ) → ArePlaced input left.value → ArePlaced input right
        → IfOk result (ArePlaced input) }
    ensures stands { (input text middle behind rest : List ℕ) → Stands input left.value text middle
        → ReadsOr op middle behind → Stands input right behind rest
        → IfOk result (λ it. Stands input it text rest) }
{
    let right = Box::new(alloc, right)?;
    Ok(ParsedExpr::Union(op, left, right))
}

// Joins two operands of an intersection or a difference.
fn join(
    alloc: Global,
    op: Joint,
    left: Box<ParsedExpr>,
    right: ParsedExpr,
) -> Result<ParsedExpr, AllocError>
    ensures tree { IfOk result
        (λ it. tree_of it ≡ joint_of op (tree_of left.value) (tree_of right)) }
    ensures placed { (input : List ℕ) → ArePlaced input left.value → ArePlaced input right
        → IfOk result (ArePlaced input) }
    ensures stands { (input text middle behind rest : List ℕ) → Stands input left.value text middle
        → ReadsJoint op middle behind → Stands input right behind rest
        → IfOk result (λ it. Stands input it text rest) }
{
    let right = Box::new(alloc, right)?;
    match op {
        Joint::And(op) => Ok(ParsedExpr::Intersection(op, left, right)),
        Joint::Minus(op) => Ok(ParsedExpr::Difference(op, left, right)),
    }
}

// Negates an operand.
fn negate(alloc: Global, op: NotOperator, operand: ParsedExpr) -> Result<ParsedExpr, AllocError>
    ensures tree { IfOk result (λ it. tree_of it ≡ negation op (tree_of operand)) }
    ensures placed { (input : List ℕ) → ArePlaced input operand → IfOk result (ArePlaced input) }
    ensures stands { (input text inside rest : List ℕ) → ReadsNot op text inside
        → Stands input operand inside rest → IfOk result (λ it. Stands input it text rest) }
{
    Ok(ParsedExpr::Not(op, Box::new(alloc, operand)?))
}

// Puts an expression into parentheses.
fn enclose(alloc: Global, inside: ParsedExpr) -> Result<ParsedExpr, AllocError>
    ensures tree { IfOk result (λ it. tree_of it ≡ parens (tree_of inside)) }
    ensures placed { (input : List ℕ) → ArePlaced input inside → IfOk result (ArePlaced input) }
    ensures stands { (input text within behind rest : List ℕ) → Behind
        (codes "(") text within → Stands input inside within behind → Behind (codes ")") behind rest
        → IfOk result (λ it. Stands input it text rest) }
{
    Ok(ParsedExpr::Parens(Box::new(alloc, inside)?))
}

// The negation or the `(` that comes next, and what follows it.
fn opening(text: &str) -> Option<(Waiting, &str)>
    ensures some { IfSome result (λ it. IsOpening it.0 text.now it.1.now) }
    ensures shorter { IfSome result (λ it. length it.1.now < length text.now) }
    ensures none { IfNone result (OpensNothing text.now) }
{
    if let Some((op, behind)) = not_operator(text) {
        return Some((Waiting::Not(op), behind));
    }
    match behind(skip_blanks(text), "(") {
        Some(inside) => Some((Waiting::Parens, inside)),
        None => None,
    }
}

// Reads the negations and the `(` that come next, which wait, and answers what follows them.
fn descend<'i>(stack: &mut Stack, text: &'i str) -> Result<&'i str, AllocError>
    ensures descends { IfOk result (λ rest. Descends stack.old text.now stack.new rest.now) }
    ensures none { IfOk result (λ rest. OpensNothing rest.now) }
{
    let mut rest = text;
    while let Some((waiting, inside)) = opening(rest) {
        stack.push(waiting)?;
        rest = inside;
    }
    Ok(rest)
}

// An operand with the negations that wait for it.
fn negated(alloc: Global, stack: &mut Stack, tree: ParsedExpr) -> Result<ParsedExpr, AllocError>
    ensures makes { IfOk result
        (MakesUp (Has part.operand) (Has part.operand) stack.old tree stack.new) }
    ensures takes { IfOk result (λ _. TakesOperands stack.new) }
{
    let mut operand = tree;
    while let Some(op) = stack.take_not() {
        operand = negate(alloc, op, operand)?;
    }
    Ok(operand)
}

// An operand with the left operand of an intersection or a difference that waits for it, if one
// does.
fn with_joint(alloc: Global, stack: &mut Stack, tree: ParsedExpr) -> Result<ParsedExpr, AllocError>
    requires takes { TakesOperands stack.old }
    ensures makes { IfOk result
        (MakesUp (Has part.operand) (Has part.conjunction) stack.old tree stack.new) }
    ensures takes { IfOk result (λ _. TakesJoints stack.new) }
{
    match stack.take_joint() {
        Some((left, op)) => join(alloc, op, left, tree),
        None => Ok(tree),
    }
}

// A whole conjunction with the left operand of a union that waits for it, if one does.
fn with_union(alloc: Global, stack: &mut Stack, tree: ParsedExpr) -> Result<ParsedExpr, AllocError>
    requires takes { TakesJoints stack.old }
    ensures makes { IfOk result
        (MakesUp HasConjunction (Has part.expression) stack.old tree stack.new) }
    ensures takes { IfOk result (λ _. TakesUnions stack.new) }
{
    match stack.take_union() {
        Some((left, op)) => union(alloc, op, left, tree),
        None => Ok(tree),
    }
}

// What follows an operand, with what waits for it.
fn ahead_of<'i>(
    alloc: Global,
    faults: &mut Faults<'_>,
    stack: &mut Stack,
    tree: ParsedExpr,
    text: &'i str,
) -> Result<Ahead<'i>, AllocError>
    requires suffix { IsSuffix text.now faults.old.input }
    ensures input { faults.new.input ≡ faults.old.input }
    ensures follows { IfOk result
        (Follows stack.old tree text.now stack.new (count faults.old) (count faults.new)) }
{
    let operand = negated(alloc, stack, tree)?;
    let conjunction = with_joint(alloc, stack, operand)?;
    if let Some((op, behind)) = joint_operator(faults, text)? {
        stack.push(Waiting::Joint(Box::new(alloc, conjunction)?, op))?;
        return Ok(Ahead::Operand(behind));
    }
    let expression = with_union(alloc, stack, conjunction)?;
    if let Some((op, behind)) = or_operator(faults, text)? {
        stack.push(Waiting::Union(Box::new(alloc, expression)?, op))?;
        return Ok(Ahead::Operand(behind));
    }
    Ok(Ahead::Whole(expression))
}

// What follows an operand and the `)` behind it, with what waits for it.
fn ascend<'i>(
    alloc: Global,
    faults: &mut Faults<'_>,
    stack: &mut Stack,
    tree: ParsedExpr,
    text: &'i str,
) -> Result<Next<'i>, AllocError>
    requires suffix { IsSuffix text.now faults.old.input }
    ensures input { faults.new.input ≡ faults.old.input }
    ensures ascends { IfOk result
        (Ascends stack.old tree text.now stack.new (count faults.old) (count faults.new)) }
{
    let mut operand = tree;
    let mut rest = text;
    loop {
        match ahead_of(alloc, faults, stack, operand, rest)? {
            Ahead::Operand(behind) => return Ok(Next::Operand(behind)),
            Ahead::Whole(expression) => {
                if !stack.take_parens() {
                    return Ok(Next::Done(expression, rest));
                }
                rest = close(faults, rest)?;
                operand = enclose(alloc, expression)?;
            }
        }
    }
}

/// An expression: conjunctions, and the operators of unions between them. What is nested takes
/// memory, and no stack.
pub(crate) fn expression<'i>(
    alloc: Global,
    faults: &mut Faults<'_>,
    text: &'i str,
) -> Result<(ParsedExpr, &'i str), Stop>
    requires suffix { IsSuffix text.now faults.old.input }
    ensures input { faults.new.input ≡ faults.old.input }
    ensures finds { Finds Expression Closes text.now (count faults.old) (count faults.new) result }
    ensures placed { IfOk result (λ it. ArePlaced faults.old.input it.0) }
    ensures stands { count faults.new ≡ count faults.old
        → IfOk result (λ it. Stands faults.old.input it.0 text.now it.1.now) }
{
    let mut stack = Stack::new(alloc);
    let mut rest = text;
    loop {
        let start = descend(&mut stack, rest)?;
        let (operand, behind) = predicate(alloc, faults, start)?;
        match ascend(alloc, faults, &mut stack, operand, behind)? {
            Next::Operand(ahead) => rest = ahead,
            Next::Done(tree, end) => return Ok((tree, end)),
        }
    }
}

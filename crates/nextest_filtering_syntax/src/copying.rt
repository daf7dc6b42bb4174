// Filtersets copied, without recursion.
ghost use Rattle.std.specs.Prelude.{◌≡◌, ◌<◌, ◌≤◌, Some, [], ◌∷◌, ◌++◌, vec_len, IfOk, IfSome, OnOk, map};
ghost use Rattle.nextest_filtering_syntax.specs.Copies.{made_by, operands_of, symbol_in, symbol_of, symbols_of, shapes, spanned_of, waiting_symbols};
ghost use Rattle.nextest_filtering_syntax.specs.Walking.{waiting_weight};

use crate::tree::ParsedExpr;
use nextest_filtering_ast::{AndOperator, DifferenceOperator, NotOperator, OrOperator, ParsedLeaf};
use std::alloc::{AllocError, Global};

// A symbol of a filterset: an operator, parentheses, or a predicate.
#[derive(Clone, Copy)]
pub(crate) enum LentSymbol<'t> {
    Not(NotOperator),
    Union(OrOperator),
    Intersection(AndOperator),
    Difference(DifferenceOperator),
    Parens,
    Set(&'t ParsedLeaf),
}

/// A copy takes linear time and constant stack.
impl Clone for ParsedExpr {
    ghost use Rattle.nextest_filtering_syntax.specs.Copies.{spanned_of};

    ghost is_clone = { λ original copy. spanned_of copy ≡ spanned_of original };

    fn clone(&self) -> Result<ParsedExpr, AllocError> {
        match self {
            ParsedExpr::Not(_, operand)
            | ParsedExpr::Union(_, operand, _)
            | ParsedExpr::Intersection(_, operand, _)
            | ParsedExpr::Difference(_, operand, _)
            | ParsedExpr::Parens(operand) => copied(*Box::allocator(operand), self),
            ParsedExpr::Set(leaf) => Ok(ParsedExpr::Set(leaf.clone()?)),
        }
    }
}

// A copy, which is made from its last symbol to its first.
fn copied(alloc: Global, tree: &ParsedExpr) -> Result<ParsedExpr, AllocError>
    ensures { IfOk result (λ copy. spanned_of copy ≡ spanned_of tree.now) }
{
    let mut symbols = symbols_of(alloc, tree)?;
    let mut made = Vec::new(alloc);
    while let Some(symbol) = symbols.pop() {
        make(alloc, symbol, &mut made)?;
    }
    Ok(take_last(&mut made))
}

// The symbols of a filterset in prefix order.
fn symbols_of<'t>(alloc: Global, tree: &'t ParsedExpr) -> Result<Vec<LentSymbol<'t>>, AllocError>
    ensures { IfOk result (λ symbols. map symbol_of symbols.items ≡ symbols_of tree.now) }
{
    let mut symbols = Vec::new(alloc);
    let mut waiting = Vec::new(alloc);
    waiting.push(tree)?;
    while let Some(next) = waiting.pop() {
        symbols.push(symbol_in(next))?;
        put_operands(next, &mut waiting)?;
    }
    Ok(symbols)
}

// The symbol that a filterset begins with, in prefix order.
fn symbol_in<'t>(tree: &'t ParsedExpr) -> LentSymbol<'t>
    ensures { symbol_of result ≡ symbol_in tree.entry.now }
{
    match tree {
        ParsedExpr::Not(op, _) => LentSymbol::Not(*op),
        ParsedExpr::Union(op, _, _) => LentSymbol::Union(*op),
        ParsedExpr::Intersection(op, _, _) => LentSymbol::Intersection(*op),
        ParsedExpr::Difference(op, _, _) => LentSymbol::Difference(*op),
        ParsedExpr::Parens(_) => LentSymbol::Parens,
        ParsedExpr::Set(leaf) => LentSymbol::Set(leaf),
    }
}

// Lets the operands of a filterset wait, the left one on top.
#[tactic(auto, using(crate::proofs::Copies::waiting_symbols_more, crate::proofs::Walking::waiting_weight_more, std::proofs::lemmas::Grind::common_steps))]
fn put_operands<'t>(
    tree: &'t ParsedExpr,
    waiting: &mut Vec<&'t ParsedExpr>,
) -> Result<(), AllocError>
    ensures symbols { OnOk result (symbol_in tree.entry.now ∷ waiting_symbols waiting.new.items
        ≡ waiting_symbols (waiting.old.items ++ tree.entry ∷ [])) }
    ensures fewer { OnOk result (waiting_weight waiting.new.items
        < waiting_weight (waiting.old.items ++ tree.entry ∷ [])) }
{
    match tree {
        ParsedExpr::Not(_, inside) | ParsedExpr::Parens(inside) => waiting.push(inside)?,
        ParsedExpr::Union(_, left, right)
        | ParsedExpr::Intersection(_, left, right)
        | ParsedExpr::Difference(_, left, right) => {
            waiting.push(right)?;
            waiting.push(left)?;
        }
        ParsedExpr::Set(_) => {}
    }
    Ok(())
}

// Takes the last one off.
fn take_last(made: &mut Vec<ParsedExpr>) -> ParsedExpr
    requires some { 1 ≤ vec_len made.old }
    ensures { made.old.items ≡ made.new.items ++ result ∷ [] }
{
    match made.pop() {
        Some(last) => last,
        None => unreachable!(),
    }
}

// Makes a filterset of its first symbol and its operands, which were made last, the left one after
// the right one.
fn make(alloc: Global, symbol: LentSymbol<'_>, made: &mut Vec<ParsedExpr>) -> Result<(), AllocError>
    requires enough { operands_of (symbol_of symbol) ≤ vec_len made.old }
    ensures { OnOk result
        (made_by (symbol_of symbol.entry) (shapes made.old.items) ≡ Some (shapes made.new.items)) }
{
    let tree = match symbol {
        LentSymbol::Not(op) => ParsedExpr::Not(op, boxed(alloc, made)?),
        LentSymbol::Union(op) => {
            let left = boxed(alloc, made)?;
            ParsedExpr::Union(op, left, boxed(alloc, made)?)
        }
        LentSymbol::Intersection(op) => {
            let left = boxed(alloc, made)?;
            ParsedExpr::Intersection(op, left, boxed(alloc, made)?)
        }
        LentSymbol::Difference(op) => {
            let left = boxed(alloc, made)?;
            ParsedExpr::Difference(op, left, boxed(alloc, made)?)
        }
        LentSymbol::Parens => ParsedExpr::Parens(boxed(alloc, made)?),
        LentSymbol::Set(leaf) => ParsedExpr::Set(leaf.clone()?),
    };
    Ok(made.push(tree)?)
}

// Takes the last one off, into a box.
fn boxed(alloc: Global, made: &mut Vec<ParsedExpr>) -> Result<Box<ParsedExpr>, AllocError>
    requires some { 1 ≤ vec_len made.old }
    ensures { OnOk result (IfOk result (λ it. made.old.items ≡ made.new.items ++ it.value ∷ [])) }
{
    Ok(Box::new(alloc, take_last(made))?)
}

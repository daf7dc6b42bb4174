// What follows an operand.
use crate::tree::ParsedExpr;

/// What follows an operand.
pub(crate) enum Ahead<'i> {
    /// An operator, and an operand behind it, which begins here.
    Operand(&'i str),
    /// Nothing that belongs to it: with what waited it makes up this whole expression.
    Whole(ParsedExpr),
}

/// What follows an operand and the `)` behind it.
pub(crate) enum Next<'i> {
    /// An operator, and an operand behind it, which begins here.
    Operand(&'i str),
    /// Nothing that belongs to it, and nothing waits: this is the expression, and this follows it.
    Done(ParsedExpr, &'i str),
}

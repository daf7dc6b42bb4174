// The tree of a filterset.
ghost use Rattle.std.specs.Prelude.{◌≡◌};
ghost use Rattle.nextest_filtering_syntax.specs.Walking.{IsPutOff};

use nextest_filtering_ast::{AndOperator, DifferenceOperator, NotOperator, OrOperator, ParsedLeaf};
use std::fmt;

/// A filterset as it was written, blanks aside. It prints as it was written, with one space on both
/// sides of an operator and behind `not`.
pub enum ParsedExpr {
    /// `not a`
    Not(NotOperator, Box<ParsedExpr>),
    /// `a or b`
    Union(OrOperator, Box<ParsedExpr>, Box<ParsedExpr>),
    /// `a and b`
    Intersection(AndOperator, Box<ParsedExpr>, Box<ParsedExpr>),
    /// `a - b`
    Difference(DifferenceOperator, Box<ParsedExpr>, Box<ParsedExpr>),
    /// `(a)`
    Parens(Box<ParsedExpr>),
    /// A predicate.
    Set(ParsedLeaf),
}

// It takes linear time, constant stack and no memory: what waits stands in boxes whose own trees
// are gone.
impl Drop for ParsedExpr {
    fn drop(mut self) {
        let mut waiting = None;
        loop {
            match self {
                ParsedExpr::Not(_, inside) | ParsedExpr::Parens(inside) => {
                    self = Box::into_inner(inside);
                }
                ParsedExpr::Union(_, left, right)
                | ParsedExpr::Intersection(_, left, right)
                | ParsedExpr::Difference(_, left, right) => {
                    let (first, behind) = put_off(left, right, waiting);
                    self = first;
                    waiting = Some(behind);
                }
                ParsedExpr::Set(_) => match waiting {
                    Some(next) => {
                        self = Box::into_inner(next);
                        waiting = None;
                    }
                    None => return,
                },
            }
        }
    }
}

// The left operand, and what waits behind it: the right one, joined in the left one's box with what
// waited before. Which operator joins them doesn't matter.
fn put_off(
    mut left: Box<ParsedExpr>,
    right: Box<ParsedExpr>,
    waiting: Option<Box<ParsedExpr>>,
) -> (ParsedExpr, Box<ParsedExpr>)
    ensures first { result.0 ≡ left.value }
    ensures behind { IsPutOff right waiting result.1 }
{
    match waiting {
        Some(behind) => {
            let joined = ParsedExpr::Union(OrOperator::Pipe, right, behind);
            (Box::replace(&mut left, joined), left)
        }
        None => (Box::into_inner(left), right),
    }
}

/// The filterset as it was written. Printing it takes stack by the tree's depth; `to_text` takes
/// constant stack.
impl fmt::Display for ParsedExpr {
    ghost use Rattle.std.specs.Prelude.{Some};
    ghost use Rattle.nextest_filtering_syntax.specs.Parsed.{tree_of};
    ghost use Rattle.nextest_filtering_ast.specs.Printing.{text_of_tree};

    ghost output = { λ it. Some (text_of_tree (tree_of it)) };

    fn fmt<W: fmt::Write>(&self, f: &mut fmt::Formatter<W>) -> fmt::Result {
        match self {
            ParsedExpr::Not(NotOperator::LiteralNot, operand) => write!(f, "not {operand}"),
            ParsedExpr::Not(NotOperator::Exclamation, operand) => write!(f, "!{operand}"),
            ParsedExpr::Union(op, left, right) => write!(f, "{left} {op} {right}"),
            ParsedExpr::Intersection(op, left, right) => write!(f, "{left} {op} {right}"),
            ParsedExpr::Difference(op, left, right) => write!(f, "{left} {op} {right}"),
            ParsedExpr::Parens(inside) => write!(f, "({inside})"),
            ParsedExpr::Set(leaf) => write!(f, "{leaf}"),
        }
    }
}

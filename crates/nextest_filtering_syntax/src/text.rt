// A filterset as a text, without recursion.
ghost use Rattle.std.specs.Prelude.{◌≡◌, [], ◌∷◌, ◌++◌, ◌<◌, IfOk, OnOk, string_bytes};
ghost use Rattle.nextest_filtering_ast.specs.Printing.{not_front, text_of_tree};
ghost use Rattle.nextest_filtering_syntax.specs.Parsed.{tree_of};
ghost use Rattle.nextest_filtering_syntax.specs.Pieces.{whole_text, pieces_weight};

use crate::tree::ParsedExpr;
use nextest_filtering_ast::{AndOperator, DifferenceOperator, NotOperator, OrOperator};
use std::alloc::{AllocError, Global};

// What waits to be printed: a tree, an operator with the spaces round it, or `)`.
#[derive(Drop)]
enum Piece<'t> {
    Tree(&'t ParsedExpr),
    Or(OrOperator),
    And(AndOperator),
    Minus(DifferenceOperator),
    Close,
}

impl ParsedExpr {
    /// The filterset as it prints, in linear time and constant stack. It fails only on allocation.
    pub fn to_text(&self, alloc: Global) -> Result<String, AllocError>
        ensures { IfOk result (λ text. string_bytes text ≡ text_of_tree (tree_of self.now)) }
    {
        let mut text = String::new(alloc);
        let mut waiting = Vec::new(alloc);
        waiting.push(Piece::Tree(self))?;
        while let Some(piece) = waiting.pop() {
            print(piece, &mut text, &mut waiting)?;
        }
        Ok(text)
    }
}

// Adds a piece to the text: of a tree what stands ahead of its operands, which wait, the left one
// on top.
#[tactic(auto, using(crate::proofs::Pieces::waiting_text_append, crate::proofs::Pieces::pieces_weight_append, std::proofs::lemmas::Grind::common_steps))]
fn print<'t>(
    piece: Piece<'t>,
    text: &mut String,
    waiting: &mut Vec<Piece<'t>>,
) -> Result<(), AllocError>
    ensures whole { OnOk result (whole_text text.new waiting.new.items
        ≡ whole_text text.old (waiting.old.items ++ piece.entry ∷ [])) }
    ensures fewer { OnOk result (pieces_weight waiting.new.items
        < pieces_weight (waiting.old.items ++ piece.entry ∷ [])) }
{
    match piece {
        Piece::Tree(tree) => begin(tree, text, waiting),
        Piece::Or(op) => write!(text, " {op} "),
        Piece::And(op) => write!(text, " {op} "),
        Piece::Minus(op) => write!(text, " {op} "),
        Piece::Close => text.push_str(")"),
    }
}

// Prints what stands ahead of a tree's operands, and lets these wait.
#[tactic(auto, using(crate::proofs::Pieces::waiting_text_append, crate::proofs::Pieces::pieces_weight_append, std::proofs::lemmas::Grind::common_steps))]
fn begin<'t>(
    tree: &'t ParsedExpr,
    text: &mut String,
    waiting: &mut Vec<Piece<'t>>,
) -> Result<(), AllocError>
    ensures whole { OnOk result (whole_text text.new waiting.new.items
        ≡ whole_text text.old (waiting.old.items ++ Piece.Tree tree.entry ∷ [])) }
    ensures fewer { OnOk result (pieces_weight waiting.new.items
        < pieces_weight (waiting.old.items ++ Piece.Tree tree.entry ∷ [])) }
{
    match tree {
        ParsedExpr::Not(op, operand) => {
            text.push_str(not_front(op))?;
            waiting.push(Piece::Tree(operand))?;
        }
        ParsedExpr::Union(op, left, right) => put_operands(left, Piece::Or(*op), right, waiting)?,
        ParsedExpr::Intersection(op, left, right) => {
            put_operands(left, Piece::And(*op), right, waiting)?;
        }
        ParsedExpr::Difference(op, left, right) => {
            put_operands(left, Piece::Minus(*op), right, waiting)?;
        }
        ParsedExpr::Parens(inside) => {
            text.push_str("(")?;
            waiting.push(Piece::Close)?;
            waiting.push(Piece::Tree(inside))?;
        }
        ParsedExpr::Set(leaf) => write!(text, "{leaf}")?,
    }
    Ok(())
}

// What prints ahead of a negation's operand.
fn not_front(op: &NotOperator) -> &'static str
    ensures { result.now ≡ not_front op.now }
{
    match op {
        NotOperator::LiteralNot => "not ",
        NotOperator::Exclamation => "!",
    }
}

// Lets two operands wait with the operator between them.
fn put_operands<'t>(
    left: &'t ParsedExpr,
    op: Piece<'t>,
    right: &'t ParsedExpr,
    waiting: &mut Vec<Piece<'t>>,
) -> Result<(), AllocError>
    ensures { OnOk result (waiting.new.items
        ≡ waiting.old.items ++ Piece.Tree right.entry ∷ op.entry ∷ Piece.Tree left.entry ∷ []) }
{
    waiting.push(Piece::Tree(right))?;
    waiting.push(op)?;
    waiting.push(Piece::Tree(left))?;
    Ok(())
}

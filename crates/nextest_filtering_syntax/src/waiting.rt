// What was read and waits for an operand behind it.
ghost use Rattle.std.specs.Prelude.{◌≡◌, ◌∷◌, List, [], IfOk, IfSome, IfNone, true, false};
ghost use Rattle.nextest_filtering_ast.specs.declared.operators.NotOperator.{NotOperator};
ghost use Rattle.nextest_filtering_syntax.specs.declared.waiting.Waiting.{Waiting};
ghost use Rattle.nextest_filtering_syntax.specs.declared.waiting.Waiting.TheVariants as waits;
ghost use Rattle.nextest_filtering_syntax.specs.Waiting.{TakesJoints, TakesOperands, TakesUnions, has_joint, has_union};

use crate::tree::ParsedExpr;
use nextest_filtering_ast::{Joint, NotOperator, OrOperator};
use std::alloc::{AllocError, Global};
use std::marker::Model;

/// What was read and waits for an operand behind it.
#[derive(Drop)]
pub(crate) enum Waiting {
    /// A negation.
    Not(NotOperator),
    /// A `(`.
    Parens,
    /// The left operand of an intersection or a difference, with the operator.
    Joint(Box<ParsedExpr>, Joint),
    /// The left operand of a union, with the operator.
    Union(Box<ParsedExpr>, OrOperator),
}

/// What waits, each part for an operand behind it. In a clause it is a list, the last one first. No
/// left operand stands directly within one that binds as much.
#[derive(Drop)]
pub(crate) struct Stack {
    items: Vec<Waiting>,
}

impl Model for Stack {
    ghost use Rattle.std.specs.Prelude.{List, reverse};
    ghost use Rattle.std.specs.Coded.{codes};
    ghost use Rattle.nextest_filtering_syntax.specs.Waiting.{Nests};
    ghost use Rattle.nextest_filtering_syntax.specs.contracts.tree.ParsedExpr as tree;
    ghost use Rattle.nextest_filtering_syntax.specs.declared.waiting.Waiting.{Waiting};

    ghost Value = { List Waiting };

    ghost view = { λ it. reverse it.items.items };

    ghost coded = { Prim.hlevel (codes, tree.the_row.coded) };

    ghost invariant = { λ it. Nests (reverse it.items.items) };
}

impl Stack {
    /// Where nothing waits. It takes no memory.
    pub(crate) fn new(alloc: Global) -> Stack
        ensures { result ≡ [] }
    {
        Stack {
            items: Vec::new(alloc),
        }
    }

    // One more waits.
    pub(crate) fn push(&mut self, waiting: Waiting) -> Result<(), AllocError>
        requires joints { has_joint waiting ≡ true → TakesJoints self.old }
        requires unions { has_union waiting ≡ true → TakesUnions self.old }
        ensures { IfOk result (λ _. self.new ≡ waiting ∷ self.old) }
    {
        Ok(self.items.push(waiting)?)
    }

    // Takes off a negation that waits last.
    pub(crate) fn take_not(&mut self) -> Option<NotOperator>
        ensures some { IfSome result (λ op. self.old ≡ waits.Not op ∷ self.new) }
        ensures none { IfNone result ((self.new ≡ self.old) × TakesOperands self.old) }
    {
        let Some(Waiting::Not(op)) = self.items.last() else {
            return None;
        };
        let op = *op;
        self.items.pop();
        Some(op)
    }

    // Takes off the left operand of an intersection or a difference that waits last.
    pub(crate) fn take_joint(&mut self) -> Option<(Box<ParsedExpr>, Joint)>
        ensures some { IfSome result (λ it. self.old ≡ waits.Joint it.0 it.1 ∷ self.new) }
        ensures takes { IfSome result (λ _. TakesJoints self.new) }
        ensures none { IfNone result
            ((self.new ≡ self.old) × (TakesOperands self.old → TakesJoints self.old)) }
    {
        if !matches!(self.items.last(), Some(Waiting::Joint(_, _))) {
            return None;
        }
        match self.items.pop() {
            Some(Waiting::Joint(left, op)) => Some((left, op)),
            _ => unreachable!(),
        }
    }

    // Takes off the left operand of a union that waits last.
    pub(crate) fn take_union(&mut self) -> Option<(Box<ParsedExpr>, OrOperator)>
        ensures some { IfSome result (λ it. self.old ≡ waits.Union it.0 it.1 ∷ self.new) }
        ensures takes { IfSome result (λ _. TakesUnions self.new) }
        ensures none { IfNone result
            ((self.new ≡ self.old) × (TakesJoints self.old → TakesUnions self.old)) }
    {
        if !matches!(self.items.last(), Some(Waiting::Union(_, _))) {
            return None;
        }
        match self.items.pop() {
            Some(Waiting::Union(left, op)) => Some((left, op)),
            _ => unreachable!(),
        }
    }

    // Takes off a `(` that waits last, and answers whether it did.
    pub(crate) fn take_parens(&mut self) -> bool
        ensures yes { result ≡ true → self.old ≡ waits.Parens ∷ self.new }
        ensures no { result ≡ false
            → (self.new ≡ self.old) × (TakesUnions self.old → self.old ≡ []) }
    {
        let waits = matches!(self.items.last(), Some(Waiting::Parens));
        if waits {
            self.items.pop();
        }
        waits
    }
}

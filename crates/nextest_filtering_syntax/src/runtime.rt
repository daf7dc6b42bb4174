// The predicates of a tree that only a test that runs can answer.
ghost use Rattle.std.specs.Prelude.{◌≡◌, [], ◌∷◌, ◌++◌, ◌<◌, IfOk, OnOk, map};
ghost use Rattle.nextest_filtering_ast.specs.Runtime.{runtime_leaves, leaf_behind};
ghost use Rattle.nextest_filtering_syntax.specs.Parsed.{tree_of};
ghost use Rattle.nextest_filtering_syntax.specs.Walking.{all_leaves, waiting_weight};

use crate::tree::ParsedExpr;
use nextest_filtering_ast::ParsedLeaf;
use std::alloc::{AllocError, Global};

impl ParsedExpr {
    /// The predicates that only a test answers, from left to right, in linear time and constant
    /// stack. It fails only on allocation.
    pub fn runtime_only_leaves(&self, alloc: Global) -> Result<Vec<&ParsedLeaf>, AllocError>
        ensures { IfOk result
            (λ found. map leaf_behind found.items ≡ runtime_leaves (tree_of self.now)) }
    {
        let mut found = Vec::new(alloc);
        let mut waiting = Vec::new(alloc);
        waiting.push(self)?;
        while let Some(tree) = waiting.pop() {
            visit(tree, &mut waiting, &mut found)?;
        }
        Ok(found)
    }
}

// Adds a predicate that only a test answers, or lets the operands of a tree wait, the left one on
// top.
#[tactic(auto, using(crate::proofs::Walking::waiting_leaves_more, crate::proofs::Walking::waiting_weight_more, std::proofs::lemmas::Grind::common_steps))]
fn visit<'t>(
    tree: &'t ParsedExpr,
    waiting: &mut Vec<&'t ParsedExpr>,
    found: &mut Vec<&'t ParsedLeaf>,
) -> Result<(), AllocError>
    ensures leaves { OnOk result (all_leaves found.new.items waiting.new.items
        ≡ all_leaves found.old.items (waiting.old.items ++ tree.entry ∷ [])) }
    ensures fewer { OnOk result (waiting_weight waiting.new.items
        < waiting_weight (waiting.old.items ++ tree.entry ∷ [])) }
{
    match tree {
        ParsedExpr::Not(_, inside) | ParsedExpr::Parens(inside) => waiting.push(inside)?,
        ParsedExpr::Union(_, left, right)
        | ParsedExpr::Intersection(_, left, right)
        | ParsedExpr::Difference(_, left, right) => {
            waiting.push(right)?;
            waiting.push(left)?;
        }
        ParsedExpr::Set(leaf) => {
            if leaf.is_runtime_only() {
                found.push(leaf)?;
            }
        }
    }
    Ok(())
}

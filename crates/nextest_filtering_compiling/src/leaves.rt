// The predicates of a tree.
ghost use Rattle.std.specs.Prelude.{◌≡◌, IfOk, map};
ghost use Rattle.nextest_filtering_compiling.specs.Leaves.{behind, leaves_of};

use nextest_filtering_ast::ParsedLeaf;
use nextest_filtering_syntax::ParsedExpr;
use std::alloc::{AllocError, Global};

// The predicates of a tree, from left to right. The parts that are still to be looked into wait in
// memory, the leftmost one last, so a deep tree takes no more stack than a flat one.
pub(crate) fn leaves_of(alloc: Global, tree: &ParsedExpr) -> Result<Vec<&ParsedLeaf>, AllocError>
    ensures { IfOk result (λ found. map behind found.items ≡ leaves_of tree.now) }
{
    let mut found = Vec::new(alloc);
    let mut waiting: Vec<&ParsedExpr> = Vec::new(alloc);
    waiting.push(tree)?;
    while let Some(next) = waiting.pop() {
        match next {
            ParsedExpr::Not(_, inside) | ParsedExpr::Parens(inside) => waiting.push(inside)?,
            ParsedExpr::Union(_, left, right)
            | ParsedExpr::Intersection(_, left, right)
            | ParsedExpr::Difference(_, left, right) => {
                waiting.extend_from_slice(&[right, left])?;
            }
            ParsedExpr::Set(leaf) => found.push(leaf)?,
        }
    }
    Ok(found)
}

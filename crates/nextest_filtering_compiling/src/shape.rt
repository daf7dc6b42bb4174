// A tree as a formula over the places of its predicates.
ghost use Rattle.std.specs.Prelude.{◌≡◌, ◌+◌, ◌<◌, ◌^◌, ◌∷◌, length, reverse, sum_by, IfOk, OnOk, map};
ghost use Rattle.nextest_filtering_filters.specs.Steps.{formula_of, waiting_of};
ghost use Rattle.nextest_filtering_compiling.specs.Leaves.{behind, leaves_of, formula_of_tree};
ghost use Rattle.nextest_filtering_compiling.specs.Tasks.{done, work_in, work_of};

use nextest_filtering_ast::ParsedLeaf;
use nextest_filtering_filters::{Formula, FormulaBuilder};
use nextest_filtering_syntax::ParsedExpr;
use std::alloc::{AllocError, Global};

// What is still to be done for the formula of a tree.
#[derive(Clone, Copy)]
enum Task<'t> {
    // Add the formula of a part of the tree.
    Add(&'t ParsedExpr),
    // Negate the last formula.
    Negate,
    // Join the last two to what is so where one of them is, or both.
    Either,
    // Join the last two to what is so where both are.
    Both,
}

// The formula of a tree over the places of its predicates, which are these, from left to right. The
// tasks wait in memory, the next one last, so a deep tree takes no more stack than a flat one.
pub(crate) fn shape_of(
    alloc: Global,
    tree: &ParsedExpr,
    leaves: &[&ParsedLeaf],
) -> Result<Formula, AllocError>
    requires { map behind leaves.now ≡ leaves_of tree.now }
    ensures { IfOk result (λ it. formula_of it ≡ formula_of_tree 0 tree.now) }
{
    let mut builder = FormulaBuilder::new(alloc);
    // a slice has fewer than 2^64 predicates, so their places can be counted
    let _count = leaves.len();
    let mut next = 0;
    let mut tasks = Vec::new(alloc);
    tasks.push(Task::Add(tree))?;
    while let Some(task) = tasks.pop() {
        match task {
            Task::Add(part) => add(part, &mut tasks, &mut builder, &mut next)?,
            Task::Negate => builder.negate()?,
            Task::Either => builder.either()?,
            Task::Both => builder.both()?,
        }
    }
    Ok(builder.into_formula())
}

// Adds a predicate, whose place is `next`, and counts it, or lets the tasks wait that another tree
// comes to.
fn add<'t>(
    tree: &'t ParsedExpr,
    tasks: &mut Vec<Task<'t>>,
    builder: &mut FormulaBuilder,
    next: &mut usize,
) -> Result<(), AllocError>
    requires { next.old + length (leaves_of tree.now) < 2 ^ 64 }
    ensures same { OnOk result (done (reverse tasks.new.items) (waiting_of builder.new) next.new
        ≡ done (reverse tasks.old.items) (formula_of_tree next.old tree.now
        ∷ waiting_of builder.old) (next.old + length (leaves_of tree.now))) }
    ensures less { OnOk result (sum_by work_in tasks.new.items
        < work_of tree.now + sum_by work_in tasks.old.items) }
{
    match tree {
        ParsedExpr::Not(_, inside) => tasks.extend_from_slice(&[Task::Negate, Task::Add(inside)]),
        ParsedExpr::Parens(inside) => tasks.extend_from_slice(&[Task::Add(inside)]),
        ParsedExpr::Union(_, left, right) => {
            tasks.extend_from_slice(&[Task::Either, Task::Add(right), Task::Add(left)])
        }
        ParsedExpr::Intersection(_, left, right) => {
            tasks.extend_from_slice(&[Task::Both, Task::Add(right), Task::Add(left)])
        }
        ParsedExpr::Difference(_, left, right) => {
            tasks.extend_from_slice(&[Task::Both, Task::Negate, Task::Add(right), Task::Add(left)])
        }
        ParsedExpr::Set(_) => {
            builder.leaf(*next)?;
            *next += 1;
            Ok(())
        }
    }
}

// A formula, and its value.
ghost use Rattle.std.specs.Prelude.{◌≡◌, ◌≤◌, ℕ, Bool, [], ◌∷◌, ◌++◌, vec_len, IfOk, All};
ghost use Rattle.nextest_filtering_filters.specs.Formula.{Gives, IsValue};
ghost use Rattle.nextest_filtering_filters.specs.Steps.{formula_of};
ghost use Rattle.nextest_filtering_filters.specs.Values.{IsSome, may_by, values_at};
ghost use Rattle.nextest_filtering_filters.specs.Waiting.{Takes, over};

use crate::step::FormulaStep;
use crate::values::Values;
use std::alloc::AllocError;
use std::marker::Model;

/// A formula over leaves that are known by their numbers. In a clause it is its steps, and what
/// they make is `formula_of` them.
#[derive(Drop)]
pub struct Formula {
    pub(crate) steps: Vec<FormulaStep>,
}

impl Model for Formula {
    ghost use Rattle.std.specs.Prelude.{List};
    ghost use Rattle.nextest_filtering_filters.specs.Steps.{IsOf, formula_of};
    ghost use Rattle.nextest_filtering_filters.specs.declared.step.FormulaStep as words;

    ghost Value = { List words.FormulaStep };

    ghost view = { λ it. it.steps.items };

    ghost invariant = { λ it. IsOf it.steps.items (formula_of it.steps.items) };
}

impl Clone for Formula {
    ghost is_clone = { λ original copy. copy ≡ original };

    fn clone(&self) -> Result<Formula, AllocError> {
        Ok(Formula {
            steps: self.steps.clone()?,
        })
    }
}

// Takes the last one off.
pub(crate) fn take_last<T>(waiting: &mut Vec<T>) -> T
    requires some { 1 ≤ vec_len waiting.old }
    ensures { waiting.old.items ≡ waiting.new.items ++ result ∷ [] }
{
    match waiting.pop() {
        Some(last) => last,
        None => unreachable!(),
    }
}

// The values of a leaf.
pub(crate) fn values_of(leaves: &[Values], leaf: usize) -> Values
    requires some { All IsSome leaves.now }
    ensures values { result ≡ values_at leaves.now leaf }
    ensures some { IsSome result }
{
    match leaves.get(leaf) {
        Some(values) => *values,
        None => Values {
            may_hold: false,
            may_fail: true,
        },
    }
}

// Takes one step over values that wait, the last one last.
fn take_step(
    step: FormulaStep,
    leaves: &[Values],
    waiting: &mut Vec<Values>,
) -> Result<(), AllocError>
    requires few { over step ≤ vec_len waiting.old }
    requires some { All IsSome leaves.now }
    ensures { IfOk result
        (λ _. Takes (may_by (values_at leaves.now)) step waiting.old.items waiting.new.items) }
{
    match step {
        FormulaStep::Leaf(leaf) => Ok(waiting.push(values_of(leaves, leaf))?),
        FormulaStep::Not => {
            let inside = take_last(waiting);
            Ok(waiting.push(inside.negated())?)
        }
        FormulaStep::Either => {
            let right = take_last(waiting);
            let left = take_last(waiting);
            Ok(waiting.push(left.either(right))?)
        }
        FormulaStep::Both => {
            let right = take_last(waiting);
            let left = take_last(waiting);
            Ok(waiting.push(left.both(right))?)
        }
    }
}

impl Formula {
    /// The value that the formula has whatever its leaves are, each place of a leaf apart from all
    /// others; `None` where it can be true and can be false. `leaves` are the values of the leaves,
    /// in the order of their numbers; a leaf that isn't there holds nowhere. `waiting` is room for
    /// values: what it had is gone, and memory is asked for only where it has too little. It fails
    /// only on allocation.
    pub fn value(
        &self,
        leaves: &[Values],
        waiting: &mut Vec<Values>,
    ) -> Result<Option<bool>, AllocError>
        requires some { All IsSome leaves.now }
        ensures { IfOk result
            (IsValue (Gives (may_by (values_at leaves.now)) (formula_of self.now))) }
    {
        waiting.clear();
        for step in &self.steps {
            take_step(*step, leaves, waiting)?;
        }
        Ok(take_last(waiting).one())
    }
}

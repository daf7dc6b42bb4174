// Making a formula, step by step.
ghost use Rattle.std.specs.Prelude.{◌≡◌, ◌≤◌, ℕ, List, [], ◌∷◌, length, IfOk, OnErr};
ghost use Rattle.nextest_filtering_filters.specs.Formula.{leaf, negated, either, both};
ghost use Rattle.nextest_filtering_filters.specs.Formula as words;
ghost use Rattle.nextest_filtering_filters.specs.Steps.{formula_of, waiting_of};

use crate::formula::Formula;
use crate::step::FormulaStep;
use std::alloc::{AllocError, Global};
use std::marker::Model;

/// Formulas that wait to be joined. In a clause it is their steps, and what waits is
/// `waiting_of` them, the last one first.
#[derive(Drop)]
pub struct FormulaBuilder {
    steps: Vec<FormulaStep>,
}

impl Model for FormulaBuilder {
    ghost use Rattle.std.specs.Prelude.{◌≡◌, List, [], Some};
    ghost use Rattle.nextest_filtering_filters.specs.Steps.{after, waiting_of};
    ghost use Rattle.nextest_filtering_filters.specs.declared.step.FormulaStep as words;

    ghost Value = { List words.FormulaStep };

    ghost view = { λ it. it.steps.items };

    ghost invariant = { λ it. after it.steps.items [] ≡ Some (waiting_of it.steps.items) };
}

impl FormulaBuilder {
    /// Where nothing waits. It takes no memory.
    pub fn new(alloc: Global) -> FormulaBuilder
        ensures { result ≡ [] }
    {
        FormulaBuilder {
            steps: Vec::new(alloc),
        }
    }

    /// Adds a leaf. It fails only on allocation, and then nothing changes.
    pub fn leaf(&mut self, number: usize) -> Result<(), AllocError>
        ensures added { IfOk result (λ _. waiting_of self.new ≡ leaf number ∷ waiting_of self.old) }
        ensures kept { OnErr result (self.new ≡ self.old) }
    {
        Ok(self.steps.push(FormulaStep::Leaf(number))?)
    }

    /// Negates the last formula. It fails only on allocation, and then nothing changes.
    pub fn negate(&mut self) -> Result<(), AllocError>
        requires some { 1 ≤ length (waiting_of self.old) }
        ensures negated { IfOk result
            (λ _. (inside : words.Formula ℕ) (more : List (words.Formula ℕ))
            → waiting_of self.old ≡ inside ∷ more → waiting_of self.new ≡ negated inside ∷ more) }
        ensures kept { OnErr result (self.new ≡ self.old) }
    {
        Ok(self.steps.push(FormulaStep::Not)?)
    }

    /// Joins the last two formulas to what is so where one of them is, or both. It fails only on
    /// allocation, and then nothing changes.
    pub fn either(&mut self) -> Result<(), AllocError>
        requires two { 2 ≤ length (waiting_of self.old) }
        ensures joined { IfOk result (λ _.
            (right left : words.Formula ℕ) (more : List (words.Formula ℕ)) → waiting_of self.old
            ≡ right ∷ left ∷ more → waiting_of self.new ≡ either left right ∷ more) }
        ensures kept { OnErr result (self.new ≡ self.old) }
    {
        Ok(self.steps.push(FormulaStep::Either)?)
    }

    /// Joins the last two formulas to what is so where both are. It fails only on allocation, and
    /// then nothing changes.
    pub fn both(&mut self) -> Result<(), AllocError>
        requires two { 2 ≤ length (waiting_of self.old) }
        ensures joined { IfOk result (λ _.
            (right left : words.Formula ℕ) (more : List (words.Formula ℕ)) → waiting_of self.old
            ≡ right ∷ left ∷ more → waiting_of self.new ≡ both left right ∷ more) }
        ensures kept { OnErr result (self.new ≡ self.old) }
    {
        Ok(self.steps.push(FormulaStep::Both)?)
    }

    /// The formula that waits alone.
    pub fn into_formula(self) -> Formula
        requires one { length (waiting_of self) ≡ 1 }
        ensures { waiting_of self ≡ formula_of result ∷ [] }
    {
        let FormulaBuilder { steps } = self;
        Formula { steps }
    }
}

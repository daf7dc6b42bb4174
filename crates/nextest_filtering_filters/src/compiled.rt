// Filters that are compiled.
ghost use Rattle.std.specs.Prelude.{◌≡◌, ◌∷◌, [], IfOk};
ghost use Rattle.std.specs.List.{list_any};
ghost use Rattle.nextest_filtering_filters.specs.Formula.{leaf};
ghost use Rattle.nextest_filtering_filters.specs.Filter.{filter_of, is_default, is_group};
ghost use Rattle.nextest_filtering_filters.specs.declared.leaf.FiltersetLeaf.TheVariants.{All};

use crate::builder::FormulaBuilder;
use crate::formula::Formula;
use crate::leaf::FiltersetLeaf;
use std::alloc::{AllocError, Global};
use std::marker::Model;

/// A filter that is compiled: predicates, and a formula over them by their places, in postfix
/// order. What it is in a clause is `filter_of` it.
pub struct CompiledExpr {
    formula: Formula,
    leaves: Vec<FiltersetLeaf>,
}

impl Drop for CompiledExpr {
    fn drop(self) {
        let Self {
            formula: _,
            leaves: _,
        } = self;
    }
}

impl Model for CompiledExpr {
    ghost use Rattle.nextest_filtering_filters.specs.Filter.{Compiled};

    ghost Value = { Compiled };

    ghost view = { λ it. record { steps = it.formula; leaves = it.leaves.items } };
}

impl Clone for CompiledExpr {
    ghost use Rattle.nextest_filtering_filters.specs.Copies.{IsCopy};

    ghost is_clone = { IsCopy };

    fn clone(&self) -> Result<CompiledExpr, AllocError> {
        Ok(CompiledExpr {
            formula: self.formula.clone()?,
            leaves: self.leaves.clone()?,
        })
    }
}

impl CompiledExpr {
    /// A formula over predicates, each known by its place in the list. A place where none stands
    /// holds nowhere.
    pub fn new(formula: Formula, leaves: Vec<FiltersetLeaf>) -> CompiledExpr
        ensures steps { result.steps ≡ formula }
        ensures leaves { result.leaves ≡ leaves.items }
    {
        CompiledExpr { formula, leaves }
    }

    /// `all()`. It fails only on allocation.
    pub fn all(alloc: Global) -> Result<CompiledExpr, AllocError>
        ensures filter { IfOk result (λ it. filter_of it ≡ leaf All) }
        ensures leaves { IfOk result (λ it. it.leaves ≡ All ∷ []) }
    {
        let mut leaves = Vec::new(alloc);
        leaves.push(FiltersetLeaf::All)?;
        let mut builder = FormulaBuilder::new(alloc);
        builder.leaf(0)?;
        Ok(CompiledExpr {
            formula: builder.into_formula(),
            leaves,
        })
    }

    /// The formula over the places of its predicates.
    pub fn formula(&self) -> &Formula
        ensures { result.now ≡ self.now.steps }
    {
        &self.formula
    }

    /// The predicates, from left to right.
    pub fn leaves(&self) -> &[FiltersetLeaf]
        ensures { result.now ≡ self.now.leaves }
    {
        self.leaves.as_slice()
    }

    /// Whether it asks for the group of a test.
    pub fn has_group_matchers(&self) -> bool
        ensures { result ≡ list_any is_group self.now.leaves }
    {
        self.leaves
            .iter()
            .any(|leaf| matches!(leaf, FiltersetLeaf::Group(_, _)))
    }

    /// Whether it asks for the default filter.
    pub fn has_default(&self) -> bool
        ensures { result ≡ list_any is_default self.now.leaves }
    {
        self.leaves
            .iter()
            .any(|leaf| matches!(leaf, FiltersetLeaf::Default))
    }
}

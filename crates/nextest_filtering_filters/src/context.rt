// What filters are asked with.
ghost use Rattle.std.specs.Prelude.{◌≡◌, false};
ghost use Rattle.std.specs.List.{list_any};
ghost use Rattle.nextest_filtering_filters.specs.Filter.{is_default, is_group};

use crate::compiled::CompiledExpr;
use std::marker::Model;

/// The default filter, which `default()` is. In a clause it is that filter.
#[derive(Drop)]
pub struct EvalContext<'c> {
    default_filter: &'c CompiledExpr,
}

impl<'c> Model for EvalContext<'c> {
    ghost use Rattle.std.specs.Prelude.{◌≡◌, false};
    ghost use Rattle.std.specs.List.{list_any};
    ghost use Rattle.nextest_filtering_filters.specs.Filter.{Compiled, is_default, is_group};

    ghost Value = { Compiled };

    ghost view = { λ it. it.default_filter.now };

    ghost invariant = { λ it. (list_any is_default it.default_filter.now.leaves ≡ false)
        × (list_any is_group it.default_filter.now.leaves ≡ false) };
}

impl<'c> EvalContext<'c> {
    /// What filters are asked with, where this is the default filter: a filter that has neither
    /// `default()` nor `group()`.
    pub fn new(default_filter: &'c CompiledExpr) -> EvalContext<'c>
        requires no_default { list_any is_default default_filter.now.leaves ≡ false }
        requires no_group { list_any is_group default_filter.now.leaves ≡ false }
        ensures { result ≡ default_filter.now }
    {
        EvalContext { default_filter }
    }

    /// The default filter.
    pub fn default_filter(&self) -> &'c CompiledExpr
        ensures filter { result.now ≡ self.now }
        ensures no_default { list_any is_default result.now.leaves ≡ false }
        ensures no_group { list_any is_group result.now.leaves ≡ false }
    {
        self.default_filter
    }
}

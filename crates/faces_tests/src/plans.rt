// The plan of inputs.
ghost use Rattle.std.specs.Prelude.{Ok, ◌∷◌, []};
ghost use Rattle.test_runner_core.specs.Plan.{Builds};

use crate::listers::Suite;
use std::alloc::Global;
use test_runner_core::{BuildPlan, Inputs, Plan, PlanError};

/// The plan of inputs whose binaries are a suite's: which tests run, with which settings.
pub fn planned(alloc: Global, inputs: &Inputs, suite: &mut Suite) -> Result<Plan, PlanError>
    ensures { Builds (λ _. Ok (suite.old.name ∷ [])) inputs.now result }
{
    Plan::build(alloc, inputs, suite)
}

// How a plan is built.
ghost use Rattle.std.specs.Prelude.{◌≡◌, IfOk, Ok, OnOk, false, map};
ghost use Rattle.std.specs.List.{list_any};
ghost use Rattle.std.specs.List.Sorted.{IsPermutation, IsSorted};
ghost use Rattle.nextest_filtering_filters.specs.Filter.{is_default, is_group};
ghost use Rattle.test_runner_core_listing.specs.Answers.{AnswerAs, Answers};
ghost use Rattle.test_runner_core_listing.specs.Listing.{asked_of, listing};
ghost use Rattle.test_runner_core_plan.specs.Order.{plan_cmp};
ghost use Rattle.test_runner_core_planning.specs.Checks.{AnswerFor, listed_in, overflows};
ghost use Rattle.test_runner_core_planning.specs.Filtering.{Choice};
ghost use Rattle.test_runner_core_planning.specs.Inside.{HasWanted, IsInGroup, in_force};
ghost use Rattle.test_runner_core_planning.specs.Plan as words;
ghost use Rattle.test_runner_core_workspace.specs.declared.record.Binary.{Binary};

use crate::filtering::filters_in_force;
use crate::groups::ProfileGroups;
use crate::plan_error::PlanError;
use crate::plan_fault::PlanFault;
use crate::settled_tests::{SettledTests, settled_tests};
use crate::wanted::{Settled, Wanted, settle, wanted_in};
use nextest_filtering_filters::{CompiledExpr, EvalContext};
use nextest_run_events_results::OwnedTestInstanceId;
use nextest_run_events_visibility::StatusLevels;
use nextest_text::{Listing, Text};
use std::alloc::Global;
use test_runner_core_inputs::Inputs;
use test_runner_core_listing::{Selection, select};
use test_runner_core_plan::{Plan, PlanTest, in_order};
use test_runner_core_settings::RunSettings;
use test_runner_core_workspace::{Binary, Lister};

/// How a plan is built.
pub trait BuildPlan {
    /// The plan of inputs. An `Err` tells the first reason, in the written order, why they have
    /// none, or that there was no memory, which says nothing of the inputs. The lister is asked
    /// once for each listed binary, in the workspace's order, and for no other: for none where the
    /// inputs are refused before, and else up to the first binary whose answer is refused.
    fn build<L: Lister>(alloc: Global, inputs: &Inputs, lister: &mut L) -> Result<Plan, PlanError>
        ensures builds { words.Builds (L.answer lister.old) inputs.now result }
        ensures stays { (other : Binary) → L.answer lister.new other ≡ L.answer lister.old other }
        ensures asks { words.AsksWith (L.answer lister.old) inputs.now (words.lacks_memory result)
            (L.asked lister.old) (L.asked lister.new) };
}

impl BuildPlan for Plan {
    fn build<L: Lister>(alloc: Global, inputs: &Inputs, lister: &mut L) -> Result<Plan, PlanError> {
        plan_in(alloc, inputs, lister)
    }
}

// The plan of inputs.
fn plan_in<L: Lister>(alloc: Global, inputs: &Inputs, lister: &mut L) -> Result<Plan, PlanError>
    ensures builds { words.Builds (L.answer lister.old) inputs.now result }
    ensures stays { (other : Binary) → L.answer lister.new other ≡ L.answer lister.old other }
    ensures asks { words.AsksWith (L.answer lister.old) inputs.now (words.lacks_memory result)
        (L.asked lister.old) (L.asked lister.new) }
{
    let Settled {
        config,
        warnings,
        cx,
    } = settle(alloc, inputs)?;
    let wanted = wanted_in(alloc, inputs, &config, &cx)?;
    let Selection {
        listed,
        tests: selected,
        skipped,
    } = selection_by(alloc, inputs, &wanted, lister)?;
    let SettledTests { tests, scripts } = settled_tests(
        alloc,
        &wanted.run.profile,
        inputs.mode,
        selected,
    )?;
    if has_too_many(tests.as_slice()) {
        return Err(PlanError::Refused(PlanFault::RetriesTooMany));
    }
    Ok(plan_of(
        &wanted.run.settings,
        scripts,
        listed,
        tests,
        skipped,
        warnings,
    ))
}

// What the filters in force select.
fn selection_by<'w, L: Lister>(
    alloc: Global,
    inputs: &'w Inputs,
    wanted: &Wanted<'_>,
    lister: &mut L,
) -> Result<Selection<'w>, PlanError>
    requires { HasWanted inputs.now wanted.now }
    ensures selects { (choice : Choice) (chosen : Answers) → AnswerFor inputs.now choice chosen
        → words.Selected result
        (listing (L.answer lister.old) chosen (listed_in inputs.now chosen))
        (listed_in inputs.now chosen) }
    ensures stays { (other : Binary) → L.answer lister.new other ≡ L.answer lister.old other }
    ensures asks { (choice : Choice) (chosen : Answers) → AnswerFor inputs.now choice chosen
        → words.Asks result (L.asked lister.old)
        (asked_of (L.answer lister.old) (listed_in inputs.now chosen)) (L.asked lister.new) }
{
    let default = &wanted.run.profile.default_filter().filter.compiled;
    select_beside(alloc, inputs, wanted, default, lister)
}

// What they select, where this is the default filter.
fn select_beside<'w, L: Lister>(
    alloc: Global,
    inputs: &'w Inputs,
    wanted: &Wanted<'_>,
    default: &CompiledExpr,
    lister: &mut L,
) -> Result<Selection<'w>, PlanError>
    requires no_default { list_any is_default default.now.leaves ≡ false }
    requires no_group { list_any is_group default.now.leaves ≡ false }
    ensures selects { (chosen : Answers)
        → AnswerAs (in_force wanted.now.filterset inputs.now.ignore_default_filter default.now)
        default.now (IsInGroup wanted.now.run.profile) chosen
        → words.Selected result
        (listing (L.answer lister.old) chosen (listed_in inputs.now chosen))
        (listed_in inputs.now chosen) }
    ensures stays { (other : Binary) → L.answer lister.new other ≡ L.answer lister.old other }
    ensures asks { (chosen : Answers)
        → AnswerAs (in_force wanted.now.filterset inputs.now.ignore_default_filter default.now)
        default.now (IsInGroup wanted.now.run.profile) chosen
        → words.Asks result (L.asked lister.old)
        (asked_of (L.answer lister.old) (listed_in inputs.now chosen)) (L.asked lister.new) }
{
    let filterset = wanted.filterset.as_ref();
    let filters = filters_in_force(alloc, filterset, default, inputs.ignore_default_filter)?;
    let ecx = EvalContext::new(default);
    let groups = ProfileGroups {
        alloc,
        profile: &wanted.run.profile,
    };
    let binaries = inputs.workspace.binaries.as_slice();
    Ok(select(alloc, binaries, filters.as_slice(), &ecx, &groups, lister)?)
}

// Whether the tries of a test, one more than its retries, can't be counted in 32 bits.
fn has_too_many(tests: &[PlanTest]) -> bool
    ensures { result ≡ list_any (λ test. overflows test.settings) tests.now }
{
    tests.iter().any(overflows)
}

// Whether those of this one can't.
fn overflows(test: &PlanTest) -> bool
    ensures { result ≡ overflows test.now.settings }
{
    test.settings.retries.count().checked_add(1).is_none()
}

// The plan of these tests.
fn plan_of(
    settings: &RunSettings,
    scripts: Listing<Text>,
    listed: Listing<Text>,
    tests: Vec<PlanTest>,
    skipped: Listing<OwnedTestInstanceId>,
    warnings: Listing<Text>,
) -> Plan
    ensures tests { IsPermutation tests.items result.tests }
    ensures order { IsSorted plan_cmp result.tests }
    ensures skipped { result.skipped ≡ skipped }
    ensures listed { result.listed ≡ listed }
    ensures limit { result.limit ≡ settings.now.max_fail }
    ensures levels { result.levels ≡ settings.now.levels }
    ensures scripts { result.scripts ≡ scripts }
    ensures warnings { result.warnings ≡ warnings }
{
    Plan {
        scripts,
        tests: in_order(tests),
        listed,
        skipped,
        limit: settings.max_fail,
        levels: StatusLevels {
            status_level: settings.levels.status_level,
            final_status_level: settings.levels.final_status_level,
        },
        warnings,
    }
}

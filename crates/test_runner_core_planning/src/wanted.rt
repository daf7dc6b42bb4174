// What inputs ask for.
ghost use Rattle.std.specs.Prelude.{◌≡◌, ◌++◌, IfOk};
ghost use Rattle.test_runner_core_planning.specs.Filtering as filtering;
ghost use Rattle.test_runner_core_planning.specs.Inside.{AreSettled, IsConfigured, GivesWanted};

use crate::filtering::{context_of, filterset_in};
use crate::plan_error::PlanError;
use nextest_filtering_compiling::ParseContext;
use nextest_filtering_filters::CompiledExpr;
use nextest_text::{Listing, Text};
use std::alloc::{AllocError, Global};
use test_runner_core_inputs::Inputs;
use test_runner_core_settings::{
    ChosenRun, ConfiguredRun, RunConfig, VersionPass, configure, run_settings, version_pass,
};

// What inputs ask for: what is set for their run, with the chosen profile, and their filterset.
#[derive(Drop)]
pub(crate) struct Wanted<'c> {
    pub(crate) run: ChosenRun<'c>,
    pub(crate) filterset: Option<CompiledExpr>,
}

// The configuration of inputs, with all warnings, and their workspace as filtersets are compiled
// for it.
#[derive(Drop)]
pub(crate) struct Settled {
    pub(crate) config: RunConfig,
    pub(crate) warnings: Listing<Text>,
    pub(crate) cx: ParseContext,
}

// The configuration of inputs, unless they are refused before their profile is looked for.
pub(crate) fn settle(alloc: Global, inputs: &Inputs) -> Result<Settled, PlanError>
    ensures { AreSettled inputs.now result }
{
    inputs.workspace.check(alloc)?;
    let VersionPass {
        warnings,
        experimental,
    } = version_pass(alloc, inputs)?;
    let cx = context_of(alloc, &inputs.workspace)?;
    let ConfiguredRun {
        config,
        warnings: more,
    } = configure(alloc, &cx, inputs, experimental)?;
    Ok(Settled {
        config,
        warnings: joined(warnings, more)?,
        cx,
    })
}

// Texts, and others behind them.
fn joined(first: Listing<Text>, more: Listing<Text>) -> Result<Listing<Text>, AllocError>
    ensures { IfOk result (λ it. it ≡ first ++ more) }
{
    let mut all = first;
    for text in Vec::from(more) {
        all.push(text)?;
    }
    Ok(all)
}

// What inputs ask for that have this configuration, and whose workspace is `cx` to filtersets.
pub(crate) fn wanted_in<'c>(
    alloc: Global,
    inputs: &Inputs,
    config: &'c RunConfig,
    cx: &ParseContext,
) -> Result<Wanted<'c>, PlanError>
    requires configured { IsConfigured inputs.now config.now }
    requires context { cx.now ≡ filtering.context_of inputs.now.workspace }
    ensures { GivesWanted inputs.now result }
{
    let run = run_settings(alloc, config, inputs)?;
    let known = &run.settings.known_groups;
    let filterset = filterset_in(alloc, &inputs.workspace, cx, known, &inputs.filterset)?;
    Ok(Wanted { run, filterset })
}

// The filters in force.
ghost use Rattle.std.specs.Prelude.{◌≡◌, IfOk};
ghost use Rattle.std.specs.Option.{option_copied};
ghost use Rattle.nextest_filtering_graph.specs.Making.{lent_pairs};
ghost use Rattle.test_runner_core_listing.specs.Answers.{lent_compiled as lent_filters};
ghost use Rattle.test_runner_core_planning.specs.Filtering as words;
ghost use Rattle.test_runner_core_planning.specs.Inside.{GivesFilterset, in_force};
ghost use Rattle.test_runner_core_workspace.specs.Workspace.{refusal_of};

use crate::plan_error::PlanError;
use crate::plan_fault::PlanFault;
use nextest_filtering_arguments::FiltersetKind;
use nextest_filtering_compiling::{Filterset, FiltersetError, ParseContext};
use nextest_filtering_filters::{CompiledExpr, KnownGroups};
use nextest_filtering_graph::{GraphError, PackageGraph};
use nextest_text::Text;
use std::alloc::{AllocError, Global};
use test_runner_core_workspace::{Binary, Link, Package, WorkspaceRecord};

// Packages, each by its id and its name.
fn package_pairs<'w>(
    alloc: Global,
    packages: &'w [Package],
) -> Result<Vec<(&'w str, &'w str)>, AllocError>
    ensures { IfOk result (λ pairs. lent_pairs pairs.items ≡ words.pairs_of_packages packages.now) }
{
    let mut pairs = Vec::new(alloc);
    for package in packages {
        pairs.push((package.id.as_str(), package.name.as_str()))?;
    }
    Ok(pairs)
}

// Links, each by the ids of its ends.
fn link_pairs<'w>(alloc: Global, links: &'w [Link]) -> Result<Vec<(&'w str, &'w str)>, AllocError>
    ensures { IfOk result (λ pairs. lent_pairs pairs.items ≡ words.pairs_of_links links.now) }
{
    let mut pairs = Vec::new(alloc);
    for link in links {
        pairs.push((link.from.as_str(), link.to.as_str()))?;
    }
    Ok(pairs)
}

// Binaries, each by its id and its name.
fn binary_pairs(alloc: Global, binaries: &[Binary]) -> Result<Vec<(Text, Text)>, AllocError>
    ensures { IfOk result (λ pairs. pairs.items ≡ words.pairs_of_binaries binaries.now) }
{
    let mut pairs = Vec::new(alloc);
    for binary in binaries {
        pairs.push((binary.id.clone()?, binary.name.clone()?))?;
    }
    Ok(pairs)
}

// The graph of a workspace that isn't refused.
fn graph_of(alloc: Global, workspace: &WorkspaceRecord) -> Result<PackageGraph, AllocError>
    requires { refusal_of workspace.now ≡ None }
    ensures { IfOk result (λ graph. graph ≡ words.graph_of workspace.now) }
{
    let packages = package_pairs(alloc, workspace.packages.as_slice())?;
    let links = link_pairs(alloc, workspace.links.as_slice())?;
    match PackageGraph::new(alloc, packages.as_slice(), links.as_slice()) {
        Ok(graph) => Ok(graph),
        Err(GraphError::OutOfMemory) => Err(AllocError),
        Err(GraphError::Refused(_)) => unreachable!(),
    }
}

// A workspace that isn't refused, as filtersets are compiled for it.
pub(crate) fn context_of(
    alloc: Global,
    workspace: &WorkspaceRecord,
) -> Result<ParseContext, AllocError>
    requires { refusal_of workspace.now ≡ None }
    ensures { IfOk result (λ cx. cx ≡ words.context_of workspace.now) }
{
    let graph = graph_of(alloc, workspace)?;
    let binaries = binary_pairs(alloc, workspace.binaries.as_slice())?;
    Ok(ParseContext::new(alloc, graph)?.with_binaries(binaries))
}

// The filter that a filterset is in a workspace, which is `cx` to filtersets, where these groups
// are known.
fn parsed(
    alloc: Global,
    workspace: &WorkspaceRecord,
    cx: &ParseContext,
    known: &KnownGroups,
    text: &Text,
) -> Result<Option<CompiledExpr>, PlanError>
    requires { cx.now ≡ words.context_of workspace.now }
    ensures { GivesFilterset workspace.now known.now (Some text.now) result }
{
    match Filterset::parse(alloc, text.clone()?, cx, FiltersetKind::Test, known) {
        Ok(
            Filterset {
                input: _,
                parsed: _,
                compiled,
            },
        ) => Ok(Some(compiled)),
        Err(FiltersetError::Refused(_)) => Err(PlanError::Refused(PlanFault::Filterset)),
        Err(FiltersetError::OutOfMemory) => Err(PlanError::OutOfMemory),
    }
}

// The filterset, where one is given, as it is compiled.
pub(crate) fn filterset_in(
    alloc: Global,
    workspace: &WorkspaceRecord,
    cx: &ParseContext,
    known: &KnownGroups,
    filterset: &Option<Text>,
) -> Result<Option<CompiledExpr>, PlanError>
    requires { cx.now ≡ words.context_of workspace.now }
    ensures { GivesFilterset workspace.now known.now filterset.now result }
{
    match filterset {
        Some(text) => parsed(alloc, workspace, cx, known, text),
        None => Ok(None),
    }
}

// The filters in force: the filterset, where one is given, and the default filter, unless it is
// left aside.
pub(crate) fn filters_in_force<'f>(
    alloc: Global,
    filterset: Option<&'f CompiledExpr>,
    default: &'f CompiledExpr,
    is_ignored: bool,
) -> Result<Vec<&'f CompiledExpr>, AllocError>
    ensures { IfOk result (λ filters. lent_filters filters.items
        ≡ in_force (option_copied filterset.entry) is_ignored default.now) }
{
    let mut filters = Vec::new(alloc);
    if let Some(filterset) = filterset {
        filters.push(filterset)?;
    }
    if !is_ignored {
        filters.push(default)?;
    }
    Ok(filters)
}

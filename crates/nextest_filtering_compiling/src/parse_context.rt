// The workspace that filtersets are compiled for.
ghost use Rattle.std.specs.Prelude.{◌≡◌, ◌<◌, ◌↔◌, [], length, IfOk, IsTrue};
ghost use Rattle.nextest_filtering_graph.specs.Reaching.{Reaches};

use nextest_filtering_graph::{PackageGraph, Reachability};
use nextest_text::Text;
use std::alloc::{AllocError, Global};
use std::marker::Model;

/// The workspace that filtersets are compiled for: packages, the links between them and what
/// reaches what, and test binaries, each by its id and its name. In a clause it is the graph and
/// the binaries.
pub struct ParseContext {
    graph: PackageGraph,
    reachability: Reachability,
    binaries: Vec<(Text, Text)>,
}

impl Drop for ParseContext {
    fn drop(self) {
        let Self {
            graph: _,
            reachability: _,
            binaries: _,
        } = self;
    }
}

impl Model for ParseContext {
    ghost use Rattle.std.specs.Prelude.{◌≡◌, length};
    ghost use Rattle.nextest_filtering_compiling.specs.Context.{Context};

    ghost Value = { Context };

    ghost view = { λ it. record { graph = it.graph; binaries = it.binaries.items } };

    ghost invariant = { λ it. (it.reachability.links ≡ it.graph.links)
        × (it.reachability.count ≡ length it.graph.packages) };
}

impl Clone for ParseContext {
    ghost is_clone = { λ original copy. copy ≡ original };

    fn clone(&self) -> Result<ParseContext, AllocError> {
        Ok(ParseContext {
            graph: self.graph.clone()?,
            reachability: self.reachability.clone()?,
            binaries: self.binaries.clone()?,
        })
    }
}

impl ParseContext {
    /// A workspace of these packages, whose binaries aren't known. It fails only on allocation.
    pub fn new(alloc: Global, graph: PackageGraph) -> Result<ParseContext, AllocError>
        ensures graph { IfOk result (λ it. it.graph ≡ graph) }
        ensures binaries { IfOk result (λ it. it.binaries ≡ []) }
    {
        Ok(ParseContext {
            reachability: Reachability::new(alloc, &graph)?,
            graph,
            binaries: Vec::new(alloc),
        })
    }

    /// The same with these test binaries, each by its id and its name. It takes no memory.
    pub fn with_binaries(self, binaries: Vec<(Text, Text)>) -> ParseContext
        ensures graph { result.graph ≡ self.graph }
        ensures binaries { result.binaries ≡ binaries.items }
    {
        let ParseContext {
            graph,
            reachability,
            binaries: _,
        } = self;
        ParseContext {
            graph,
            reachability,
            binaries,
        }
    }

    /// The packages, and the links between them.
    pub fn graph(&self) -> &PackageGraph
        ensures { result.now ≡ self.now.graph }
    {
        &self.graph
    }

    /// The binaries, each by its id and its name.
    pub fn binaries(&self) -> &[(Text, Text)]
        ensures { result.now ≡ self.now.binaries }
    {
        self.binaries.as_slice()
    }

    // Whether the package at one place reaches that at another by a path of links, perhaps an empty
    // one.
    pub(crate) fn reaches(&self, from: usize, to: usize) -> bool
        requires from { from < length self.now.graph.packages }
        requires to { to < length self.now.graph.packages }
        ensures { IsTrue result ↔ Reaches self.now.graph.links from to }
    {
        self.reachability.reaches(from, to)
    }
}

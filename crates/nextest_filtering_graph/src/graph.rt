// Packages and the links between them.
ghost use Rattle.std.specs.Prelude.{◌≡◌, ◌<◌, false, length, IfSome};
ghost use Rattle.nextest_filtering_graph.specs.Graph.{has_repeat, ids, place_of};
ghost use Rattle.nextest_filtering_graph.specs.Making.{lent_pairs, Makes};
ghost use Rattle.nextest_filtering_graph.specs.Reaching.{LinksBelow};

use crate::graph_error::GraphError;
use crate::indexing::{index_of, owned, placed_links};
use nextest_text::Text;
use std::alloc::{AllocError, Global};
use std::collections::BTreeMap;
use std::marker::Model;

/// Packages and the links between them. In a clause it is a record of both.
pub struct PackageGraph {
    packages: Vec<(Text, Text)>,
    links: Vec<(usize, usize)>,
    index: BTreeMap<String, usize>,
}

impl Drop for PackageGraph {
    fn drop(self) {
        let Self {
            packages: _,
            links: _,
            index: _,
        } = self;
    }
}

impl Model for PackageGraph {
    ghost use Rattle.std.specs.Prelude.{◌≡◌, false, length};
    ghost use Rattle.nextest_filtering_graph.specs.Graph.{Graph, IsIndex, has_repeat, ids};
    ghost use Rattle.nextest_filtering_graph.specs.Reaching.{LinksBelow};

    ghost Value = { Graph };

    ghost view = { λ g. record { packages = g.packages.items; links = g.links.items } };

    ghost invariant = { λ g. IsIndex g.index (ids g.packages.items)
        × LinksBelow (length g.packages.items) g.links.items
        × (has_repeat (ids g.packages.items) ≡ false) };
}

impl Clone for PackageGraph {
    ghost is_clone = { λ original copy. copy ≡ original };

    fn clone(&self) -> Result<PackageGraph, AllocError> {
        Ok(PackageGraph {
            packages: self.packages.clone()?,
            links: self.links.clone()?,
            index: self.index.clone()?,
        })
    }
}

impl PackageGraph {
    /// The graph of packages, each by its id and its name, and of links, each from an id to an id.
    /// It is refused where two packages have one id, and else where a link has an end that is no
    /// package.
    pub fn new(
        alloc: Global,
        packages: &[(&str, &str)],
        links: &[(&str, &str)],
    ) -> Result<PackageGraph, GraphError>
        ensures exact { Makes (lent_pairs packages.now) (lent_pairs links.now) result }
    {
        let index = index_of(alloc, packages)?;
        let places = placed_links(alloc, &index, links)?;
        Ok(PackageGraph {
            packages: owned(alloc, packages)?,
            links: places,
            index,
        })
    }

    /// How many packages there are.
    pub fn len(&self) -> usize
        ensures { result ≡ length self.now.packages }
    {
        self.packages.len()
    }

    /// The packages, each by its id and its name. Each has an id of its own.
    pub fn packages(&self) -> &[(Text, Text)]
        ensures value { result.now ≡ self.now.packages }
        ensures distinct { has_repeat (ids result.now) ≡ false }
    {
        self.packages.as_slice()
    }

    /// The links, each by the places of its ends among the packages.
    pub fn links(&self) -> &[(usize, usize)]
        ensures value { result.now ≡ self.now.links }
        ensures below { LinksBelow (length self.now.packages) result.now }
    {
        self.links.as_slice()
    }

    /// The place of the package of an id, if there is one.
    pub fn place_of(&self, id: &str) -> Option<usize>
        ensures value { result ≡ place_of (ids self.now.packages) id.now }
        ensures below { IfSome result (λ place. place < length self.now.packages) }
    {
        self.index.get(id).copied()
    }
}

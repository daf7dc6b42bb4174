// Which packages of a graph reach which.
ghost use Rattle.std.specs.Prelude.{◌≡◌, ◌<◌, ◌↔◌, length, IfOk, IsTrue};
ghost use Rattle.nextest_filtering_graph.specs.Reaching.{Reaches};

use crate::bits::has_bit;
use crate::closing::reached_rows;
use crate::graph::PackageGraph;
use std::alloc::{AllocError, Global};
use std::marker::Model;

/// For each package those that it reaches by links, itself among them. In a clause it is the number
/// of the packages and the links between them.
pub struct Reachability {
    width: usize,
    count: usize,
    words: Vec<u64>,
    links: Vec<(usize, usize)>,
}

impl Drop for Reachability {
    fn drop(self) {
        let Self {
            width: _,
            count: _,
            words: _,
            links: _,
        } = self;
    }
}

impl Model for Reachability {
    ghost use Rattle.std.specs.Prelude.{◌≡◌, ◌*◌, ◌≤◌, vec_len};
    ghost use Rattle.nextest_filtering_graph.specs.Reaching.{LinkedPlaces};
    ghost use Rattle.nextest_filtering_graph.specs.Rows.{AreReached};

    ghost Value = { LinkedPlaces };

    ghost view = { λ r. record { count = r.count; links = r.links.items } };

    ghost invariant = { λ r. (vec_len r.words ≡ r.count * r.width) × (r.count ≤ 64 * r.width)
        × AreReached r.links.items r.width r.count r.words.items };
}

impl Clone for Reachability {
    ghost is_clone = { λ original copy. copy ≡ original };

    fn clone(&self) -> Result<Reachability, AllocError> {
        Ok(Reachability {
            width: self.width,
            count: self.count,
            words: self.words.clone()?,
            links: self.links.clone()?,
        })
    }
}

impl Reachability {
    /// What each package of a graph reaches. It fails only on allocation.
    pub fn new(alloc: Global, graph: &PackageGraph) -> Result<Reachability, AllocError>
        ensures count { IfOk result (λ made. made.count ≡ length graph.now.packages) }
        ensures links { IfOk result (λ made. made.links ≡ graph.now.links) }
    {
        let count = graph.len();
        let width = count / 64 + 1;
        Ok(Reachability {
            width,
            count,
            words: reached_rows(alloc, width, count, graph.links())?,
            links: Vec::from_slice(alloc, graph.links())?,
        })
    }

    /// Whether the package at one place reaches that at another by a path of links, perhaps an
    /// empty one.
    pub fn reaches(&self, from: usize, to: usize) -> bool
        requires from { from < self.now.count }
        requires to { to < self.now.count }
        ensures { IsTrue result ↔ Reaches self.now.links from to }
    {
        has_bit(self.words.as_slice(), self.width, from, to)
    }
}

// The places of packages, by their ids, and the links by places.
ghost use Rattle.std.specs.Prelude.{◌≡◌, ℕ, List, IfOk};
ghost use Rattle.std.specs.BTreeMap.{get_by_text};
ghost use Rattle.nextest_filtering_graph.specs.Graph.{IsIndex, both, ids};
ghost use Rattle.nextest_filtering_graph.specs.Making.{lent_pairs, Indexes, Places};

use crate::graph_error::GraphError;
use crate::graph_fault::GraphFault;
use nextest_text::Text;
use std::alloc::{AllocError, Global};
use std::collections::BTreeMap;

// From each id to its place, where each package has an id of its own.
pub(crate) fn index_of(
    alloc: Global,
    packages: &[(&str, &str)],
) -> Result<BTreeMap<String, usize>, GraphError>
    ensures { Indexes (ids (lent_pairs packages.now)) result }
{
    let mut index = BTreeMap::new(alloc);
    for (place, (id, _)) in packages.iter().enumerate() {
        if index.insert(String::from_str(alloc, id)?, place)?.is_some() {
            return Err(GraphError::Refused(GraphFault::RepeatedPackage));
        }
    }
    Ok(index)
}

// Packages, each by its id and its name, owned.
pub(crate) fn owned(
    alloc: Global,
    packages: &[(&str, &str)],
) -> Result<Vec<(Text, Text)>, AllocError>
    ensures { IfOk result (λ copy. copy.items ≡ lent_pairs packages.now) }
{
    let mut copy = Vec::new(alloc);
    for (id, name) in packages {
        copy.push((Text::from_str(alloc, id)?, Text::from_str(alloc, name)?))?;
    }
    Ok(copy)
}

// A link by the places of its ends, where the index has both.
fn placed_link(index: &BTreeMap<String, usize>, from: &str, to: &str) -> Option<(usize, usize)>
    ensures { result ≡ both (get_by_text index.now from.now) (get_by_text index.now to.now) }
{
    let from = index.get(from)?;
    let to = index.get(to)?;
    Some((*from, *to))
}

// Each link by the places of its ends, where the index has both.
pub(crate) fn placed_links(
    alloc: Global,
    index: &BTreeMap<String, usize>,
    links: &[(&str, &str)],
) -> Result<Vec<(usize, usize)>, GraphError>
    ensures { (known : List (List ℕ)) → IsIndex index.now known
        → Places (λ it. it.items) known (lent_pairs links.now) result }
{
    let mut places = Vec::new(alloc);
    for (from, to) in links {
        match placed_link(index, from, to) {
            Some(link) => places.push(link)?,
            None => return Err(GraphError::Refused(GraphFault::UnknownLink)),
        }
    }
    Ok(places)
}

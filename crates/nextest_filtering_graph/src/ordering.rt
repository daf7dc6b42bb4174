// In which order rows are joined so that a few joins are enough, whatever the links. Nothing is
// promised of the steps: the rows come out right by any, and only time hangs on them.
//
// Places that reach each other are a group. A search against the links, begun with the places that
// a search along them left last, finds group after group, and leads along links to the head of
// each. A search along the links that begins with the heads, those of the groups found last first,
// leaves each place behind what is found from it. So the head of a group knows all that the group
// reaches once each place, in that order, has got the rows of its links' ends and of their heads;
// and then the others of the group get the head's row from one to the next.
use crate::searching::{Search, search_lists};
use std::alloc::{AllocError, Global};

// Pairs of places: the row of the second is to be joined to that of the first, one after another.
pub(crate) fn steps(
    alloc: Global,
    count: usize,
    links: &[(usize, usize)],
) -> Result<Vec<(usize, usize)>, AllocError> {
    let ends = ends_of(alloc, count, links, Direction::Along)?;
    let against = searched_against(alloc, count, links, ends.as_slice())?;
    steps_of(alloc, ends.as_slice(), &against)
}

// The search against the links, begun with the places that a search along them left last.
fn searched_against(
    alloc: Global,
    count: usize,
    links: &[(usize, usize)],
    ends: &[Vec<usize>],
) -> Result<Search, AllocError> {
    let places = all_places(alloc, count)?;
    let along = search_lists(alloc, ends, places.as_slice())?;
    let starts = ends_of(alloc, count, links, Direction::Against)?;
    search_lists(alloc, starts.as_slice(), along.left.as_slice())
}

// The steps to the heads of the groups that a search against the links found, and from them back to
// the others.
fn steps_of(
    alloc: Global,
    ends: &[Vec<usize>],
    against: &Search,
) -> Result<Vec<(usize, usize)>, AllocError> {
    let mut steps = Vec::new(alloc);
    push_parents(&mut steps, against)?;
    push_along(alloc, &mut steps, ends, against)?;
    push_parents(&mut steps, against)?;
    Ok(steps)
}

// Steps along the links, from the places in the order in which a search along them, begun with the
// heads, left them.
fn push_along(
    alloc: Global,
    steps: &mut Vec<(usize, usize)>,
    ends: &[Vec<usize>],
    against: &Search,
) -> Result<(), AllocError> {
    let heads = heads_of(alloc, ends.len(), against)?;
    let mut again = search_lists(alloc, ends, against.left.as_slice())?;
    again.left.reverse();
    push_ends(steps, again.left.as_slice(), ends, heads.as_slice())
}

// Empty lists, one for each place.
fn empty_lists(alloc: Global, count: usize) -> Result<Vec<Vec<usize>>, AllocError> {
    let mut lists = Vec::with_capacity(alloc, count)?;
    for _ in 0..count {
        lists.push(Vec::new(alloc))?;
    }
    Ok(lists)
}

// How links are followed.
#[derive(Clone, Copy)]
enum Direction {
    Along,
    Against,
}

// For each place those that one link leads to from it in this direction.
fn ends_of(
    alloc: Global,
    count: usize,
    links: &[(usize, usize)],
    direction: Direction,
) -> Result<Vec<Vec<usize>>, AllocError> {
    let mut lists = empty_lists(alloc, count)?;
    for (from, to) in links {
        let (place, end) = match direction {
            Direction::Along => (*from, *to),
            Direction::Against => (*to, *from),
        };
        if let Some(list) = lists.get_mut(place) {
            list.push(end)?;
        }
    }
    Ok(lists)
}

// The places from 0 on.
fn all_places(alloc: Global, count: usize) -> Result<Vec<usize>, AllocError> {
    (0..count).collect(alloc)
}

// The place that a search went on to for a place, or the place itself.
fn at(places: &[usize], place: usize) -> usize {
    match places.get(place) {
        Some(found) => *found,
        None => place,
    }
}

// For each place the one that the search of its group began with.
fn heads_of(alloc: Global, count: usize, against: &Search) -> Result<Vec<usize>, AllocError> {
    let mut heads = all_places(alloc, count)?;
    for place in against.left.as_slice() {
        let head = at(heads.as_slice(), against.parent(*place));
        if *place < heads.len() {
            heads[*place] = head;
        }
    }
    Ok(heads)
}

// A step from each place to the one that it was found from.
fn push_parents(steps: &mut Vec<(usize, usize)>, found: &Search) -> Result<(), AllocError> {
    for place in found.left.as_slice() {
        steps.push((*place, found.parent(*place)))?;
    }
    Ok(())
}

// Steps from each place to its links' ends and to their heads.
fn push_ends(
    steps: &mut Vec<(usize, usize)>,
    places: &[usize],
    ends: &[Vec<usize>],
    heads: &[usize],
) -> Result<(), AllocError> {
    for place in places {
        if let Some(list) = ends.get(*place) {
            push_ends_of(steps, *place, list.as_slice(), heads)?;
        }
    }
    Ok(())
}

// Steps from one place to its links' ends and to their heads.
fn push_ends_of(
    steps: &mut Vec<(usize, usize)>,
    place: usize,
    ends: &[usize],
    heads: &[usize],
) -> Result<(), AllocError> {
    for end in ends {
        steps.push((place, *end))?;
        steps.push((place, at(heads, *end)))?;
    }
    Ok(())
}

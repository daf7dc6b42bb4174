// Depth-first searches along lists of places. Nothing is promised of what they find: only time
// hangs on it.
use std::alloc::{AllocError, Global};

// What a search found.
pub(crate) struct Search {
    // The places, by when they were left: the first comes first while the search goes on, the last
    // once it is done.
    pub(crate) left: Vec<usize>,
    // For each place the one that it was found from, itself where a search began with it.
    pub(crate) parents: Vec<Option<usize>>,
}

impl Drop for Search {
    fn drop(self) {
        let Self {
            left: _,
            parents: _,
        } = self;
    }
}

// A place that waits to be entered, or to be left.
#[derive(Clone, Copy)]
struct Visit {
    place: usize,
    parent: usize,
    is_entered: bool,
}

impl Search {
    // A search that found nothing yet.
    fn new(alloc: Global, count: usize) -> Result<Search, AllocError> {
        Ok(Search {
            left: Vec::new(alloc),
            parents: vec![in alloc; None; count]?,
        })
    }

    // Whether a place is still to be found.
    fn is_new(&self, place: usize) -> bool {
        matches!(self.parents.get(place), Some(None))
    }

    // Notes where a place was found from.
    fn find(&mut self, place: usize, parent: usize) {
        if place < self.parents.len() {
            self.parents[place] = Some(parent);
        }
    }

    // The place that a place was found from.
    pub(crate) fn parent(&self, place: usize) -> usize {
        match self.parents.get(place) {
            Some(Some(parent)) => *parent,
            _ => place,
        }
    }
}

// Searches from each of the places `roots` in turn, but from none that was found before.
pub(crate) fn search_lists(
    alloc: Global,
    lists: &[Vec<usize>],
    roots: &[usize],
) -> Result<Search, AllocError> {
    let mut search = Search::new(alloc, lists.len())?;
    for root in roots {
        walk(alloc, lists, *root, &mut search)?;
    }
    search.left.reverse();
    Ok(search)
}

// Searches from one place.
fn walk(
    alloc: Global,
    lists: &[Vec<usize>],
    root: usize,
    search: &mut Search,
) -> Result<(), AllocError> {
    let mut waiting = Vec::new(alloc);
    waiting.push(Visit {
        place: root,
        parent: root,
        is_entered: false,
    })?;
    for _ in 0..u64::MAX {
        let Some(visit) = waiting.pop() else {
            return Ok(());
        };
        if visit.is_entered {
            search.left.push(visit.place)?;
        } else if search.is_new(visit.place) {
            search.find(visit.place, visit.parent);
            enter(lists, visit, search, &mut waiting)?;
        }
    }
    Ok(())
}

// Enters a place: it is left behind the places of its list.
fn enter(
    lists: &[Vec<usize>],
    visit: Visit,
    search: &Search,
    waiting: &mut Vec<Visit>,
) -> Result<(), AllocError> {
    waiting.push(Visit {
        is_entered: true,
        ..visit
    })?;
    if let Some(list) = lists.get(visit.place) {
        push_new(list.as_slice(), visit.place, search, waiting)?;
    }
    Ok(())
}

// Lets those of the places wait that are still to be found.
fn push_new(
    places: &[usize],
    parent: usize,
    search: &Search,
    waiting: &mut Vec<Visit>,
) -> Result<(), AllocError> {
    for place in places {
        if search.is_new(*place) {
            waiting.push(Visit {
                place: *place,
                parent,
                is_entered: false,
            })?;
        }
    }
    Ok(())
}

// The packages that predicates ask for.
ghost use Rattle.std.specs.Prelude.{◌<◌, length, All, IfOk};
ghost use Rattle.nextest_filtering_filters.specs.Meaning.{Tells};
ghost use Rattle.nextest_filtering_ast.specs.Tree.{matcher_of};
ghost use Rattle.nextest_filtering_compiling.specs.Asking.{AreNamed, IsAsked, IsAskedBy, IsSetFor};

use crate::parse_context::ParseContext;
use nextest_filtering_ast::NameMatcher;
use std::alloc::{AllocError, Global};
use std::collections::BTreeSet;

// Which packages a predicate asks for, where it names some.
#[derive(Clone, Copy)]
pub(crate) enum Asks {
    // Those that it names.
    Named,
    // What they reach.
    Reached,
    // What reaches them.
    Reaching,
}

// The places of the packages with a name that the matcher matches.
pub(crate) fn named_places(
    alloc: Global,
    cx: &ParseContext,
    matcher: &NameMatcher,
) -> Result<Vec<usize>, AllocError>
    ensures { IfOk result (λ it. AreNamed cx.now.graph (matcher_of matcher.now) it.items) }
{
    let mut names = matcher.matching(alloc)?;
    let mut places = Vec::new(alloc);
    for (place, package) in cx.graph().packages().iter().enumerate() {
        if names.is_match(package.1.as_str())? {
            places.push(place)?;
        }
    }
    Ok(places)
}

// Whether the package at a place is asked for, where that at another is named.
fn is_asked_by(cx: &ParseContext, asks: Asks, named: usize, place: usize) -> bool
    requires named { named < length cx.now.graph.packages }
    requires place { place < length cx.now.graph.packages }
    ensures { Tells (IsAskedBy cx.now.graph.links asks named place) result }
{
    match asks {
        Asks::Named => named == place,
        Asks::Reached => cx.reaches(named, place),
        Asks::Reaching => cx.reaches(place, named),
    }
}

// Whether the package at a place is asked for, where those at these places are named.
fn is_asked(cx: &ParseContext, asks: Asks, named: &[usize], place: usize) -> bool
    requires named { All (λ it. it < length cx.now.graph.packages) named.now }
    requires place { place < length cx.now.graph.packages }
    ensures { Tells (IsAsked cx.now.graph.links asks named.now place) result }
{
    for other in named {
        if is_asked_by(cx, asks, *other, place) {
            return true;
        }
    }
    false
}

// The ids of the packages that are asked for, where those at these places are named.
pub(crate) fn packages_asked(
    alloc: Global,
    cx: &ParseContext,
    asks: Asks,
    named: &[usize],
) -> Result<BTreeSet<String>, AllocError>
    requires named { All (λ it. it < length cx.now.graph.packages) named.now }
    ensures { IfOk result (IsSetFor cx.now.graph asks named.now) }
{
    let mut ids = BTreeSet::new(alloc);
    for (place, package) in cx.graph().packages().iter().enumerate() {
        if is_asked(cx, asks, named, place) {
            ids.insert(String::from_str(alloc, package.0.as_str())?)?;
        }
    }
    Ok(ids)
}

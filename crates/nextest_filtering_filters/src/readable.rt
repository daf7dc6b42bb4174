// Why a filter has an answer on each test: the text of each of its globs is one.
ghost use Rattle.std.specs.Prelude.{All};
ghost use Rattle.nextest_filtering_filters.specs.Deciding.{HasReadable, IsReadable};
ghost use Rattle.nextest_filtering_ast.specs.Tree.{matcher_of};

use crate::leaf::FiltersetLeaf;
use nextest_filtering_ast::NameMatcher;

// The text of a glob is one. This changes nothing, and is called for what it says, as is all here.
fn see_matcher(matcher: &NameMatcher)
    ensures { IsReadable (matcher_of matcher.now) }
{
    if let NameMatcher::Glob { glob, implicit: _ } = matcher {
        let _spelled = glob.tokens();
    }
}

// So it is with the matcher of a predicate, where it has one.
fn see_leaf(leaf: &FiltersetLeaf)
    ensures { HasReadable leaf.now }
{
    match leaf {
        FiltersetLeaf::Kind(matcher, _)
        | FiltersetLeaf::Binary(matcher, _)
        | FiltersetLeaf::BinaryId(matcher, _)
        | FiltersetLeaf::Test(matcher, _)
        | FiltersetLeaf::Group(matcher, _) => see_matcher(matcher),
        FiltersetLeaf::Packages(_)
        | FiltersetLeaf::Platform(_, _)
        | FiltersetLeaf::Default
        | FiltersetLeaf::All
        | FiltersetLeaf::None => {}
    }
}

// So it is with the matchers of some predicates.
pub(crate) fn see_leaves(leaves: &[FiltersetLeaf])
    ensures { All HasReadable leaves.now }
{
    for leaf in leaves {
        see_leaf(leaf);
    }
}

// The predicates that only a test that runs can answer.
ghost use Rattle.std.specs.Prelude.{◌≡◌};
ghost use Rattle.nextest_filtering_ast.specs.Tree.{leaf_of};
ghost use Rattle.nextest_filtering_ast.specs.Runtime.{is_runtime_only};

use crate::leaf::ParsedLeaf;

impl ParsedLeaf {
    /// Whether only a test tells whether the predicate holds, and not its binary alone: `test`,
    /// `group` and `default`.
    pub fn is_runtime_only(&self) -> bool
        ensures { result ≡ is_runtime_only (leaf_of self.now) }
    {
        matches!(
            self,
            ParsedLeaf::Test(_, _) | ParsedLeaf::Group(_, _) | ParsedLeaf::Default(_)
        )
    }
}

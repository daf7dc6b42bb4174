// Who knows the groups of tests.
ghost use Rattle.std.specs.Prelude.{◌≡◌, ◌↔◌, true, IfOk};
ghost use Rattle.nextest_filtering_ast.specs.Tree.{Matcher, matcher_of};
ghost use Rattle.nextest_filtering_filters.specs.Query.{Test, test_of};
ghost use Rattle.nextest_filtering_filters.specs.Meaning.{Tells};

use crate::query::TestQuery;
use nextest_filtering_ast::NameMatcher;
use std::alloc::AllocError;

/// Who knows the groups of tests.
pub trait GroupLookup {
    /// The group of a test has a name that the matcher matches.
    ghost member: { Self → Test → Matcher → Type 0 };

    /// Whether the group of a test has a name that the matcher matches. It fails only on
    /// allocation.
    fn is_member_test(
        &self,
        test: &TestQuery<'_>,
        matcher: &NameMatcher,
    ) -> Result<bool, AllocError>
        ensures { IfOk result
            (Tells (member self.now (test_of test.now) (matcher_of matcher.now))) };
}

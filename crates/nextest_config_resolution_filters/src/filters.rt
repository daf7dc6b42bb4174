// The filters by which a configuration tells tests apart.
ghost use Rattle.std.specs.List.{AllZip};
ghost use Rattle.std.specs.Prelude.{◌≡◌, ℕ, Bool, true, false, List, Option, IfOk};
ghost use Rattle.nextest_filtering_arguments.specs.declared.ban.FiltersetKind as purposes;
ghost use Rattle.nextest_filtering_filters.specs.declared.known_groups.KnownGroups as groups;
ghost use Rattle.nextest_filtering_filters.specs.Query.{Binary, Test, binary_of, test_of};
ghost use Rattle.nextest_config_resolution_filters.specs.Calls.{Reads};
ghost use Rattle.nextest_config_resolution_filters.specs.Filters.{FiltersLaws};

use crate::filter_error::FilterError;
use nextest_filtering_arguments::FiltersetKind;
use nextest_filtering_filters::{BinaryQuery, KnownGroups, TestQuery};
use nextest_text::Text;
use std::alloc::{AllocError, Global};

/// A filter, by which a configuration tells tests apart. It is asked beside the default filter of a
/// profile, which `default()` is.
pub trait Filters: Drop {
    /// What texts are read in: a workspace.
    type Cx;

    // The text is this filter, in this context, for this purpose and where these groups are known.
    ghost is_parsed: { Self.Cx → purposes.FiltersetKind → groups.KnownGroups → List ℕ → Self → Type 0 };

    // The reader may refuse the text though it is a filter.
    ghost is_too_deep: { List ℕ → Type 0 };

    // What it is on a binary, beside this default filter: a value whatever the binary's tests are,
    // or none where tests tell.
    ghost on_binary: { Self → Self → Binary → Option Bool → Type 0 };

    // What it is on a test, beside this default filter.
    ghost on_test: { Self → Self → Test → Bool → Type 0 };

    // It asks for the groups of tests.
    ghost asks_groups: { Self → Bool };

    // It asks what only a test tells: its name, its group, or the default filter.
    ghost has_runtime_leaves: { Self → Bool };

    // It may be a default filter: it asks neither for the default filter nor for groups.
    ghost serves_as_default: { Self → Bool };

    /// The filter of a text, in this context, for this purpose and where these groups are known. It
    /// is refused where the text is no filter there, or too deep for the reader. Or there was no
    /// memory, which says nothing of the text.
    fn parse(
        alloc: Global,
        text: Text,
        cx: &Self::Cx,
        kind: FiltersetKind,
        known_groups: &KnownGroups,
    ) -> Result<Self, FilterError>
        ensures { Reads (is_parsed cx.now kind known_groups.now text) (is_too_deep text) result };

    /// The value that it has on a binary whatever the binary's tests are; `None` where tests tell.
    /// It fails only on allocation.
    fn matches_binary(
        &self,
        alloc: Global,
        query: &BinaryQuery<'_>,
        default: &Self,
    ) -> Result<Option<bool>, AllocError>
        requires serves { serves_as_default default.now ≡ true }
        ensures { IfOk result (on_binary self.now default.now (binary_of query.now)) };

    /// Whether it, which asks for no groups, holds on a test. It fails only on allocation.
    fn matches_test(
        &self,
        alloc: Global,
        query: &TestQuery<'_>,
        default: &Self,
    ) -> Result<bool, AllocError>
        requires serves { serves_as_default default.now ≡ true }
        requires no_groups { asks_groups self.now ≡ false }
        ensures { IfOk result (on_test self.now default.now (test_of query.now)) };

    /// Whether it, which asks for no groups, holds on each of some tests of a binary, by their
    /// names and in their order: what its matchers take is made once. It fails only on allocation.
    fn matches_tests(
        &self,
        alloc: Global,
        binary: &BinaryQuery<'_>,
        names: &[&str],
        default: &Self,
    ) -> Result<Vec<bool>, AllocError>
        requires serves { serves_as_default default.now ≡ true }
        requires no_groups { asks_groups self.now ≡ false }
        ensures { IfOk result (λ values. AllZip (λ name value. on_test self.now default.now (record
            { binary = binary_of binary.now; name = name.now }) value) names.now values.items) };

    /// Whether it asks for the groups of tests.
    fn has_groups(&self) -> bool
        ensures { result ≡ asks_groups self.now };

    /// Whether it asks what only a test tells: its name, its group, or the default filter.
    fn has_runtime_leaves(&self) -> bool
        ensures { result ≡ has_runtime_leaves self.now };

    /// Whether it may be a default filter: whether it asks neither for the default filter nor for
    /// groups.
    fn serves_as_default(&self) -> bool
        ensures { result ≡ serves_as_default self.now };

    // What each kind of filters proves of these.
    ghost laws: { FiltersLaws is_parsed on_binary on_test asks_groups has_runtime_leaves serves_as_default };
}

// The predicates of filters that are compiled.
ghost use Rattle.std.specs.Prelude.{◌≡◌};
ghost use Rattle.nextest_filtering_filters.specs.Filter.{is_runtime_only};

use nextest_filtering_ast::{BuildPlatform, NameMatcher, SourceSpan};
use std::alloc::AllocError;
use std::collections::BTreeSet;

/// A predicate, as it is asked. Two are the same with the same packages, or the same matcher from
/// the same place.
#[derive(PartialEq, Eq)]
pub enum FiltersetLeaf {
    /// The binary's package is one of these, by their ids.
    Packages(BTreeSet<String>),
    /// The binary's kind.
    Kind(NameMatcher, SourceSpan),
    /// The platform that the binary is built for.
    Platform(BuildPlatform, SourceSpan),
    /// The binary's name.
    Binary(NameMatcher, SourceSpan),
    /// The binary's id.
    BinaryId(NameMatcher, SourceSpan),
    /// The test's name.
    Test(NameMatcher, SourceSpan),
    /// The test's group.
    Group(NameMatcher, SourceSpan),
    /// The default filter.
    Default,
    /// Everything.
    All,
    /// Nothing.
    None,
}

// Code that drops one calls this, and doesn't look into it.
impl Drop for FiltersetLeaf {
    fn drop(self) {
        match self {
            FiltersetLeaf::Packages(_) => {}
            FiltersetLeaf::Kind(_, _) => {}
            FiltersetLeaf::Platform(_, _) => {}
            FiltersetLeaf::Binary(_, _) => {}
            FiltersetLeaf::BinaryId(_, _) => {}
            FiltersetLeaf::Test(_, _) => {}
            FiltersetLeaf::Group(_, _) => {}
            FiltersetLeaf::Default => {}
            FiltersetLeaf::All => {}
            FiltersetLeaf::None => {}
        }
    }
}

impl Clone for FiltersetLeaf {
    ghost use Rattle.nextest_filtering_filters.specs.Copies.{IsLeafCopy};

    ghost is_clone = { IsLeafCopy };

    fn clone(&self) -> Result<FiltersetLeaf, AllocError> {
        match self {
            FiltersetLeaf::Packages(ids) => Ok(FiltersetLeaf::Packages(ids.clone()?)),
            FiltersetLeaf::Kind(matcher, span) => Ok(FiltersetLeaf::Kind(matcher.clone()?, *span)),
            FiltersetLeaf::Platform(platform, span) => {
                Ok(FiltersetLeaf::Platform(*platform, *span))
            }
            FiltersetLeaf::Binary(matcher, span) => {
                Ok(FiltersetLeaf::Binary(matcher.clone()?, *span))
            }
            FiltersetLeaf::BinaryId(matcher, span) => {
                Ok(FiltersetLeaf::BinaryId(matcher.clone()?, *span))
            }
            FiltersetLeaf::Test(matcher, span) => Ok(FiltersetLeaf::Test(matcher.clone()?, *span)),
            FiltersetLeaf::Group(matcher, span) => {
                Ok(FiltersetLeaf::Group(matcher.clone()?, *span))
            }
            FiltersetLeaf::Default => Ok(FiltersetLeaf::Default),
            FiltersetLeaf::All => Ok(FiltersetLeaf::All),
            FiltersetLeaf::None => Ok(FiltersetLeaf::None),
        }
    }
}

impl FiltersetLeaf {
    /// Whether only a test tells whether the predicate holds, and not its binary alone: test names,
    /// groups and the default filter.
    pub fn is_runtime_only(&self) -> bool
        ensures { result ≡ is_runtime_only self.now }
    {
        matches!(
            self,
            FiltersetLeaf::Test(_, _) | FiltersetLeaf::Group(_, _) | FiltersetLeaf::Default
        )
    }
}

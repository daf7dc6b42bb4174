// What a filterset is for, and which predicates it may not have.
use std::fmt;

/// What a filterset is for.
#[derive(Clone, Copy, Debug, PartialEq, Eq, Hash)]
pub enum FiltersetKind {
    /// It selects tests.
    Test,
    /// It selects tests of an archive.
    TestArchive,
    /// It is the filter of an override.
    OverrideFilter,
    /// It is the default filter of a profile.
    DefaultFilter,
}

impl fmt::Display for FiltersetKind {
    ghost use Rattle.std.specs.Prelude.{Some};
    ghost use Rattle.nextest_filtering_arguments.specs.Bans.{kind_word};

    ghost output = { λ it. Some (kind_word it) };

    fn fmt<W: fmt::Write>(&self, f: &mut fmt::Formatter<W>) -> fmt::Result {
        match self {
            FiltersetKind::Test => f.write_str("test"),
            FiltersetKind::TestArchive => f.write_str("test-archive"),
            FiltersetKind::OverrideFilter => f.write_str("override-filter"),
            FiltersetKind::DefaultFilter => f.write_str("default-filter"),
        }
    }
}

/// Why a predicate may not stand in a filterset.
#[derive(Clone, Copy, Debug, PartialEq, Eq, Hash)]
pub enum BannedPredicateReason {
    /// The default filter would be asked of itself.
    DefaultInfiniteRecursion,
    /// The groups are known only once the overrides are.
    GroupCircularDependency,
    /// The default filter is asked before the groups are known.
    GroupNotAvailableInDefaultFilter,
    /// An archive is made before the groups are known.
    GroupNotAvailableInArchive,
    /// An archive has whole binaries.
    TestNotAvailableInArchive,
}

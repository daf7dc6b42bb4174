// The predicates of the language.
use crate::matcher::NameMatcher;

/// A part of a text.
#[derive(Clone, Copy, Debug, PartialEq, Eq)]
pub struct SourceSpan {
    /// Where it begins, in bytes.
    pub offset: usize,
    /// How many bytes it has.
    pub length: usize,
}

/// The platform that a binary is built for.
#[derive(Clone, Copy, Debug, PartialEq, Eq)]
pub enum BuildPlatform {
    /// The host, as for build scripts and procedural macros.
    Host,
    /// The target.
    Target,
}

/// A predicate with its argument, and where it stands. Two are the same with the same matcher at
/// the same place.
#[derive(Debug, PartialEq, Eq)]
pub enum ParsedLeaf {
    /// `package(..)`: the package's name.
    Package(NameMatcher, SourceSpan),
    /// `deps(..)`: a package with such a name, and what it depends on.
    Deps(NameMatcher, SourceSpan),
    /// `rdeps(..)`: a package with such a name, and what depends on it.
    Rdeps(NameMatcher, SourceSpan),
    /// `kind(..)`: the binary's kind.
    Kind(NameMatcher, SourceSpan),
    /// `binary(..)`: the binary's name.
    Binary(NameMatcher, SourceSpan),
    /// `binary_id(..)`: the binary's id.
    BinaryId(NameMatcher, SourceSpan),
    /// `platform(..)`: the platform that the binary is built for.
    Platform(BuildPlatform, SourceSpan),
    /// `test(..)`: the test's name.
    Test(NameMatcher, SourceSpan),
    /// `group(..)`: the test's group.
    Group(NameMatcher, SourceSpan),
    /// `default()`: the default filter.
    Default(SourceSpan),
    /// `all()`: everything.
    All,
    /// `none()`: nothing.
    None,
}

// Code that drops one calls this, and doesn't look into it.
impl Drop for ParsedLeaf {
    fn drop(self) {
        match self {
            ParsedLeaf::Package(_, _) => {}
            ParsedLeaf::Deps(_, _) => {}
            ParsedLeaf::Rdeps(_, _) => {}
            ParsedLeaf::Kind(_, _) => {}
            ParsedLeaf::Binary(_, _) => {}
            ParsedLeaf::BinaryId(_, _) => {}
            ParsedLeaf::Platform(_, _) => {}
            ParsedLeaf::Test(_, _) => {}
            ParsedLeaf::Group(_, _) => {}
            ParsedLeaf::Default(_) => {}
            ParsedLeaf::All => {}
            ParsedLeaf::None => {}
        }
    }
}

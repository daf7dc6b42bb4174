// What a predicate looks at, and how its argument is compared.

/// What a predicate with a matcher looks at.
#[derive(Clone, Copy, Debug, PartialEq, Eq)]
pub enum Subject {
    /// The package's name.
    Package,
    /// The names of the packages that a package depends on.
    Deps,
    /// The names of the packages that depend on a package.
    Rdeps,
    /// The binary's kind.
    Kind,
    /// The binary's name.
    Binary,
    /// The binary's id.
    BinaryId,
    /// The test's name.
    Test,
    /// The test's group.
    Group,
}

/// How a text that isn't a regular expression is compared with.
#[derive(Clone, Copy)]
pub(crate) enum Comparing {
    /// The name is this text.
    Equal,
    /// The name contains this text.
    Contains,
    /// The whole name matches this glob.
    Glob,
}

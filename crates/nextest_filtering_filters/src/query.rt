// What filters are asked of.
use nextest_filtering_ast::BuildPlatform;

/// A binary, as filters look at it.
#[derive(Clone, Copy, Debug, PartialEq, Eq)]
pub struct BinaryQuery<'q> {
    /// The id of its package.
    pub package_id: &'q str,
    /// Its id.
    pub binary_id: &'q str,
    /// Its kind, by name: `lib`, `test`, `bench`, `bin`, `example`, `proc-macro`.
    pub kind: &'q str,
    /// Its name.
    pub binary_name: &'q str,
    /// The platform that it is built for.
    pub platform: BuildPlatform,
}

/// A test, as filters look at it.
#[derive(Clone, Copy, Debug, PartialEq, Eq)]
pub struct TestQuery<'q> {
    /// Its binary.
    pub binary_query: BinaryQuery<'q>,
    /// Its name.
    pub test_name: &'q str,
}

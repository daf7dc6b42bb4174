// The record of a workspace, as it comes in.
use nextest_text::{Listing, Text, Texts};

/// A package.
#[derive(Clone, Debug, PartialEq, Eq)]
pub struct Package {
    /// Its id.
    pub id: Text,
    /// Its name, which other packages may have too.
    pub name: Text,
}

impl Drop for Package {
    fn drop(self) {
        let Self { id: _, name: _ } = self;
    }
}

/// A dependency of a package on another.
#[derive(Clone, Debug, PartialEq, Eq)]
pub struct Link {
    /// The id of the package that depends.
    pub from: Text,
    /// The id of the package that it depends on.
    pub to: Text,
}

impl Drop for Link {
    fn drop(self) {
        let Self { from: _, to: _ } = self;
    }
}

/// What a test binary is made of.
#[derive(Clone, Copy, Debug, PartialEq, Eq, Hash)]
pub enum BinaryKind {
    /// A library's unit tests.
    Lib,
    /// An integration test.
    Test,
    /// A benchmark.
    Bench,
    /// A program's unit tests.
    Bin,
    /// An example.
    Example,
    /// A procedural macro's unit tests.
    ProcMacro,
}

/// What a binary was built for.
#[derive(Clone, Copy, Debug, PartialEq, Eq, Hash)]
pub enum BuildPlatform {
    /// The machine that builds.
    Host,
    /// The machine that is built for.
    Target,
}

/// What a binary lists.
#[derive(Clone, Debug, PartialEq, Eq)]
pub enum BinaryTests {
    /// The names of its tests, in its order.
    Names(Texts),
    /// Why it can't list them.
    Fault(Text),
}

impl Drop for BinaryTests {
    fn drop(self) {
        match self {
            BinaryTests::Names(_) => {}
            BinaryTests::Fault(_) => {}
        }
    }
}

/// A test binary.
#[derive(Clone, Debug, PartialEq, Eq)]
pub struct Binary {
    /// Its id.
    pub id: Text,
    /// Its name.
    pub name: Text,
    /// The id of its package.
    pub package: Text,
    /// What it is made of.
    pub kind: BinaryKind,
    /// What it was built for.
    pub platform: BuildPlatform,
    /// What it lists.
    pub tests: BinaryTests,
}

impl Drop for Binary {
    fn drop(self) {
        let Self {
            id: _,
            name: _,
            package: _,
            kind: _,
            platform: _,
            tests: _,
        } = self;
    }
}

/// A workspace, not yet checked.
#[derive(Clone, Debug, PartialEq, Eq)]
pub struct WorkspaceRecord {
    /// Its packages.
    pub packages: Listing<Package>,
    /// The dependencies between them.
    pub links: Listing<Link>,
    /// Its test binaries, in its order.
    pub binaries: Listing<Binary>,
}

impl Drop for WorkspaceRecord {
    fn drop(self) {
        let Self {
            packages: _,
            links: _,
            binaries: _,
        } = self;
    }
}

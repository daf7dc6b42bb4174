// What a unit of a run is.

/// What a unit of a run is.
#[derive(Clone, Copy, Debug, PartialEq, Eq)]
pub enum UnitKind {
    /// A test.
    Test,
    /// A setup script.
    Script,
}

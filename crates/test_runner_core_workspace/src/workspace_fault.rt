// Why a record of a workspace is refused.
use thiserror::Error;

/// Why a record is no workspace. Each reason is looked for in the whole record before the next, in
/// this order.
#[derive(Clone, Copy, Debug, PartialEq, Eq, Hash, Error)]
pub enum WorkspaceFault {
    /// Two packages have one id.
    #[error("two packages have one id")]
    RepeatedPackage,
    /// An end of a link is the id of no package.
    #[error("a link has an end that is no package")]
    UnknownLink,
    /// Two binaries have one id.
    #[error("two binaries have one id")]
    RepeatedBinary,
    /// A binary's package is the id of no package.
    #[error("a binary is of no package")]
    UnknownPackage,
    /// A binary's id is empty, or contains a tab, a line feed or a carriage return.
    #[error("a binary's id is empty or has a tab or a line end in it")]
    BadId,
}

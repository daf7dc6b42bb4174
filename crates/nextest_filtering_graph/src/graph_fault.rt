// Why packages and links are refused.
use thiserror::Error;

/// Why packages and links are no graph. The first is looked for before the second.
#[derive(Clone, Copy, Debug, PartialEq, Eq, Hash, Error)]
pub enum GraphFault {
    /// Two packages have one id.
    #[error("two packages have one id")]
    RepeatedPackage,
    /// An end of a link is the id of no package.
    #[error("a link has an end that is no package")]
    UnknownLink,
}

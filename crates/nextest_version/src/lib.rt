//! Versions, plain in contracts: as `semver` reads them, a list of parts.
#![tactic(auto)]

mod plain_version;

pub use plain_version::{PlainVersion, VersionError};

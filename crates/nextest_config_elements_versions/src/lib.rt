//! Which versions and features the sources of a configuration ask for, and what a version is by
//! them.
//!
//! Each source asks for at most one required and one recommended version, and for features by name.
//! Of a list of sources, the lowest first, the greatest version of each role counts, as the last
//! source asks for it that asks for one equal to it.
#![tactic(auto)]

mod asked_versions;
mod demand;
mod experimental;
mod feature;
mod features;
pub mod laws;
mod origin;
mod source_fault;
mod version_config;
mod version_eval;
mod version_only;
mod version_req;

pub use asked_versions::{AskedVersions, deserialize_nextest_version};
pub use demand::VersionDemand;
pub use experimental::{ExperimentalConfig, UnknownFeatures};
pub use feature::{ConfigExperimental, FeatureSet};
pub use features::deserialize_experimental;
pub use origin::{VersionOrigin, VersionSource};
pub use source_fault::{VersionOnlyError, VersionSourceFault, VersionSourceReason};
pub use version_config::NextestVersionConfig;
pub use version_eval::NextestVersionEval;
pub use version_only::VersionOnlyConfig;
pub use version_req::NextestVersionReq;

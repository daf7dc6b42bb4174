//! The sources of a configuration: where each comes from and what came of reading it, and which of
//! them count.
//!
//! Tools bring sources, and the repository has one: the file that was named, or the one that was
//! looked for. The repository's is above those of the tools, and of these the first handed in is
//! the highest.
#![tactic(auto)]

mod class;
mod counting;
mod names;
mod paths;
mod selection;
mod source;

pub use counting::counted;
pub use names::{
    CONFIG_PATH, DEFAULT_MIRI_PROFILE, DEFAULT_PROFILE, DEFAULT_PROFILES, ENVIRONMENT_PREFIX,
};
pub use paths::ConfigPaths;
pub use selection::ConfigFileSelection;
pub use source::{ConfigSource, ConfigSourceOutcome};

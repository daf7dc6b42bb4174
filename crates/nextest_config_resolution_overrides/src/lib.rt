//! The overrides of a profile, by their keys: what its file says of some of its tests. And the
//! groups of tests that a configuration defines.
//!
//! Other keys than those of an override are read past; the first value, by the bytes of the keys,
//! that may not stand there is refused with its path.
#![tactic(auto)]

mod condition;
mod groups;
pub mod laws;
mod override_config;
mod override_id;
mod overrides;
mod placed_override;
mod platforms;
mod rule;
mod schedule;

pub use condition::{FilterKey, PlatformKey};
pub use groups::{NamedGroup, deserialize_test_groups};
pub use override_config::{OverrideConfig, OverrideKeys};
pub use override_id::OverrideId;
pub use overrides::OverridesKey;
pub use placed_override::PlacedOverride;
pub use platforms::{HostKey, OverridePlatforms, PlatformKeys, TargetKey};
pub use rule::{RuleKeys, RuleValues};
pub use schedule::{PriorityKey, TestGroupKey};

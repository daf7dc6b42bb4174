// The overrides of a profile.
ghost use Rattle.nextest_config_resolution_overrides.specs.Overrides as keys;

use crate::override_config::OverrideConfig;
use nextest_config_elements_toml::{ValueError, refused};
use nextest_config_resolution_keys::{ConfigKey, deserialize_items};
use nextest_text::Listing;
use std::alloc::Global;
use toml::Value;

/// `overrides`: the overrides of a profile, in the order in which they are written.
pub struct OverridesKey;

impl ConfigKey for OverridesKey {
    type Value = Listing<OverrideConfig>;

    ghost key = { keys.overrides };

    fn path() -> &'static [&'static str] {
        &["overrides"]
    }

    fn read(alloc: Global, value: &Value) -> Result<Listing<OverrideConfig>, ValueError> {
        match value {
            Value::Array(items) => deserialize_items(alloc, items.as_slice(), &[]),
            _ => Err(refused(alloc, &[], Some(value), "an array of tables")),
        }
    }
}

// The platforms on which a rule holds.
ghost use Rattle.std.specs.Prelude.{◌≡◌, []};
ghost use Rattle.toml.specs.View.{table_view, view};
ghost use Rattle.nextest_config_elements_toml.specs.Paths.{GivesAt};
ghost use Rattle.nextest_config_resolution_keys.specs.Rows.{made_of};
ghost use Rattle.nextest_config_resolution_overrides.specs.Platforms as keys;
ghost use Rattle.nextest_config_resolution_overrides.specs.Platforms.{platform_values_in, platforms_of, platforms_with};

use nextest_config_elements_toml::{ValueError, refused};
use nextest_config_resolution_keys::{ConfigKey, DeserializeKeys, read_text};
use nextest_text::Text;
use std::alloc::{AllocError, Global};
use toml::{Table, Value};

/// `host`: the spec of the platform on which tests are built and run.
pub struct HostKey;

impl ConfigKey for HostKey {
    type Value = Text;

    ghost key = { keys.host };

    fn path() -> &'static [&'static str] {
        &["host"]
    }

    fn read(alloc: Global, value: &Value) -> Result<Text, ValueError> {
        read_text(alloc, value)
    }
}

/// `target`: the spec of the platform for which tests are built.
pub struct TargetKey;

impl ConfigKey for TargetKey {
    type Value = Text;

    ghost key = { keys.target };

    fn path() -> &'static [&'static str] {
        &["target"]
    }

    fn read(alloc: Global, value: &Value) -> Result<Text, ValueError> {
        read_text(alloc, value)
    }
}

/// The keys of a table of platforms.
pub type PlatformKeys = (HostKey, (TargetKey, ()));

/// The platforms on which a rule holds, as they are written. Each is `None` where it is left out.
pub struct OverridePlatforms {
    /// `host`: the spec of the platform on which tests are built and run.
    pub host: Option<Text>,
    /// `target`: the spec of the platform for which they are built; a text alone is this one.
    pub target: Option<Text>,
}

impl Clone for OverridePlatforms {
    ghost is_clone = { λ original copy. copy ≡ original };

    fn clone(&self) -> Result<OverridePlatforms, AllocError> {
        Ok(OverridePlatforms {
            host: self.host.clone()?,
            target: self.target.clone()?,
        })
    }
}

// One call drops it, whoever holds it.
impl Drop for OverridePlatforms {
    fn drop(self) {
        let Self { host: _, target: _ } = self;
    }
}

// A text is the spec of the target, a table has the specs of both.
pub(crate) fn platforms_of(alloc: Global, value: &Value) -> Result<OverridePlatforms, ValueError>
    ensures { GivesAt [] result (platforms_of (view value.now)) }
{
    match value {
        Value::String(text) => Ok(OverridePlatforms {
            host: None,
            target: Some(Text::from_str(alloc, text.as_str())?),
        }),
        Value::Table(table) => platforms_in(alloc, table),
        _ => Err(refused(alloc, &[], Some(value), "a string or a table")),
    }
}

// A table has the specs of both, and other keys of it are read past.
#[tactic(auto, using(crate::proofs::Platformed::gives_made))]
fn platforms_in(alloc: Global, table: &Table) -> Result<OverridePlatforms, ValueError>
    ensures { GivesAt [] result
        (made_of platforms_with (platform_values_in (table_view table.now))) }
{
    match <PlatformKeys as DeserializeKeys>::read(alloc, table) {
        Ok(values) => {
            let (host, (target, ())) = values;
            Ok(OverridePlatforms { host, target })
        }
        Err(error) => Err(error),
    }
}

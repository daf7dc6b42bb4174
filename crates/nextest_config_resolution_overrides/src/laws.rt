//! What holds of every override that is read. Each law is the contract of a function that does
//! nothing.
ghost use Rattle.std.specs.Prelude.{◌≡◌, ◌↔◌, Ok};
ghost use Rattle.toml.specs.Data.{Members};
ghost use Rattle.nextest_config_resolution_keys.specs.Rows.{refusal, refusal_of};
ghost use Rattle.nextest_config_resolution_overrides.specs.Overrides.{IsOverride, override_in, override_rows};
ghost use Rattle.nextest_config_resolution_overrides.specs.declared.override_config.OverrideConfig.{OverrideConfig};

use crate::override_config::OverrideKeys;
use nextest_config_resolution_keys::laws::refused_for;

/// A table is read as an override exactly if each of an override's keys reads it as its value.
pub fn accepted_override()
    ensures { (given : Members) (it : OverrideConfig)
        → (override_in given ≡ Ok it) ↔ IsOverride given it }
{}

/// The table of an override is refused for what its keys refuse it for.
pub fn refused_override()
    ensures { (given : Members)
        → refusal_of (override_in given) ≡ refusal override_rows given }
{
    refused_for::<OverrideKeys>();
}

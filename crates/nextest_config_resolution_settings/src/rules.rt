// Overrides as rules of a configuration.
use crate::layers::{InProfile, Rule};
use nextest_config_resolution_overrides::{OverrideId, PlacedOverride};

impl Rule for PlacedOverride {
    ghost use Rattle.nextest_config_resolution_settings.specs.Rules.{id_of};

    ghost id = { id_of };

    fn id(&self) -> &OverrideId {
        &self.id
    }
}

impl InProfile for PlacedOverride {
    ghost use Rattle.nextest_config_resolution_settings.specs.Rules.{profile_of};

    ghost profile_of = { profile_of };

    fn profile(&self) -> &str {
        self.id.profile.as_str()
    }
}

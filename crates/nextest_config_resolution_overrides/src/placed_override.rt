// An override, and where it is written.
use crate::override_config::OverrideConfig;
use crate::override_id::OverrideId;

/// An override, and where it is written.
pub struct PlacedOverride {
    /// Where it is written.
    pub id: OverrideId,
    /// What it says.
    pub config: OverrideConfig,
}

// One call drops it, whoever holds it.
impl Drop for PlacedOverride {
    fn drop(self) {
        let Self { id: _, config: _ } = self;
    }
}

// The plan of a run.
use crate::shared_settings::SharedSettings;
use nextest_config_elements_choices::MaxFail;
use nextest_run_events_results::OwnedTestInstanceId;
use nextest_run_events_visibility::StatusLevels;
use nextest_text::{Listing, Text};
use std::alloc::AllocError;

/// A selected test.
pub struct PlanTest {
    /// Which test of which binary.
    pub instance: OwnedTestInstanceId,
    /// Its settings, whose memory tests may share.
    pub settings: SharedSettings,
    /// How many attempts it has at most, from 1 on in a plan that was built.
    pub tries: u32,
}

impl Clone for PlanTest {
    ghost use Rattle.std.specs.Prelude.{◌≡◌};

    ghost is_clone = { λ original copy. copy ≡ original };

    fn clone(&self) -> Result<PlanTest, AllocError> {
        Ok(PlanTest {
            instance: self.instance.clone()?,
            settings: self.settings.clone()?,
            tries: self.tries,
        })
    }
}

// One call drops it, whoever holds it.
impl Drop for PlanTest {
    fn drop(self) {
        let Self {
            instance: _,
            settings: _,
            tries: _,
        } = self;
    }
}

/// The plan of a run.
pub struct Plan {
    /// The ids of the setup scripts that are to run, in their order.
    pub scripts: Listing<Text>,
    /// The selected tests: by greater priority, then by binary id, then by name.
    pub tests: Listing<PlanTest>,
    /// The ids of the listed binaries, in the workspace's order.
    pub listed: Listing<Text>,
    /// The tests that are listed and not selected: the binaries' in their order, each as it lists
    /// them.
    pub skipped: Listing<OwnedTestInstanceId>,
    /// At which weight failing tests stop the run.
    pub limit: MaxFail,
    /// Which statuses are shown.
    pub levels: StatusLevels,
    /// The warnings, as the report tells them.
    pub warnings: Listing<Text>,
}

impl Clone for Plan {
    ghost use Rattle.std.specs.Prelude.{◌≡◌};

    ghost is_clone = { λ original copy. copy ≡ original };

    fn clone(&self) -> Result<Plan, AllocError> {
        let scripts = self.scripts.clone()?;
        let tests = self.tests.clone()?;
        let listed = self.listed.clone()?;
        let skipped = self.skipped.clone()?;
        let warnings = self.warnings.clone()?;
        Ok(Plan {
            scripts,
            tests,
            listed,
            skipped,
            limit: self.limit,
            levels: StatusLevels {
                status_level: self.levels.status_level,
                final_status_level: self.levels.final_status_level,
            },
            warnings,
        })
    }
}

// One call drops it, whoever holds it.
impl Drop for Plan {
    fn drop(self) {
        let Self {
            scripts: _,
            tests: _,
            listed: _,
            skipped: _,
            limit: _,
            levels: _,
            warnings: _,
        } = self;
    }
}

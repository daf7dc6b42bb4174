// The settings of a test, whose memory tests share.
ghost use Rattle.std.specs.Prelude.{◌≡◌, IfOk};

use crate::plan_settings::PlanSettings;
use std::alloc::{AllocError, Global};
use std::marker::Model;
use std::ops::Deref;
use std::rc::Rc;

/// Settings of tests: a copy shares their memory. In a clause it is the settings.
pub struct SharedSettings {
    settings: Rc<PlanSettings>,
}

impl Model for SharedSettings {
    ghost use Rattle.test_runner_core_plan.specs.declared.plan_settings.PlanSettings.{PlanSettings};

    ghost Value = { PlanSettings };

    ghost view = { λ it. it.settings.value };
}

impl SharedSettings {
    /// These settings, in memory that copies share. It fails only on allocation.
    pub fn new(alloc: Global, settings: PlanSettings) -> Result<SharedSettings, AllocError>
        ensures { IfOk result (λ it. it ≡ settings) }
    {
        Ok(SharedSettings {
            settings: Rc::new(alloc, settings)?,
        })
    }
}

impl Deref for SharedSettings {
    type Target = PlanSettings;

    ghost deref_gives = { λ it settings. settings ≡ it };

    fn deref(&self) -> &PlanSettings {
        &self.settings
    }
}

impl Clone for SharedSettings {
    ghost is_clone = { λ original copy. copy ≡ original };

    fn clone(&self) -> Result<SharedSettings, AllocError> {
        Ok(SharedSettings {
            settings: self.settings.clone()?,
        })
    }
}

// One call drops it, whoever holds it.
impl Drop for SharedSettings {
    fn drop(self) {
        let Self { settings: _ } = self;
    }
}

// The default filter of a profile.
ghost use Rattle.std.specs.Prelude.{◌≡◌, IfOk};
ghost use Rattle.nextest_config_resolution_settings.specs.Default.{config_text};

use nextest_text::Text;
use std::alloc::{AllocError, Global};

/// Which part of a profile sets a default filter.
#[derive(Clone, Copy, Debug, PartialEq, Eq)]
pub enum CompiledDefaultFilterSection {
    /// The profile itself.
    Profile,
    /// One of its overrides.
    Override,
}

/// The filter of the tests that are run where none is asked for, as it was read, and where it is
/// set.
#[derive(Drop)]
pub struct CompiledDefaultFilter<'c, F> {
    /// The filter.
    pub filter: &'c F,
    /// The name of the profile that sets it.
    pub profile: &'c str,
    /// The part of that profile.
    pub section: CompiledDefaultFilterSection,
}

impl<'c, F> Clone for CompiledDefaultFilter<'c, F> {
    ghost use Rattle.std.specs.Prelude.{◌≡◌};

    ghost is_clone = { λ original copy. copy ≡ original };

    fn clone(&self) -> Result<CompiledDefaultFilter<'c, F>, AllocError> {
        Ok(CompiledDefaultFilter {
            filter: self.filter,
            profile: self.profile,
            section: self.section,
        })
    }
}

impl<'c, F> CompiledDefaultFilter<'c, F> {
    /// Where it is set, as users are told: `profile.NAME.default-filter`, with ` (override)` behind
    /// it where an override sets it. An `Err` says that there was no memory.
    pub fn display_config(&self, alloc: Global) -> Result<Text, AllocError>
        ensures { IfOk result (λ text. text ≡ config_text self.now.profile.now self.now.section) }
    {
        let profile = self.profile;
        match self.section {
            CompiledDefaultFilterSection::Profile => {
                Ok(Text::from(format!(in alloc; "profile.{profile}.default-filter")?))
            }
            CompiledDefaultFilterSection::Override => Ok(Text::from(format!(in alloc;
                "profile.{profile}.default-filter (override)"
            )?)),
        }
    }
}

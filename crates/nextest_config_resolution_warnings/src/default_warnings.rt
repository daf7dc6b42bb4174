// The texts of what was told.
ghost use Rattle.std.specs.Prelude.{◌≡◌, []};

use crate::texts;
use crate::warnings::ConfigWarnings;
use nextest_config_elements_toml::KeyPath;
use nextest_config_resolution_sources::ConfigSource;
use nextest_text::{Listing, Text};
use std::alloc::{AllocError, Global};
use std::marker::Model;

/// The text of each warning that was told, in order, which names the path of the source. In a
/// clause it is the list of these texts.
#[derive(Debug, Drop)]
pub struct DefaultConfigWarnings {
    alloc: Global,
    lines: Listing<Text>,
}

impl Model for DefaultConfigWarnings {
    ghost use Rattle.std.specs.Prelude.{List, ℕ};

    ghost Value = { List (List ℕ) };

    ghost view = { λ it. it.lines };
}

impl DefaultConfigWarnings {
    /// Nothing was told, which takes no memory.
    pub fn new(alloc: Global) -> Self
        ensures { result ≡ [] }
    {
        DefaultConfigWarnings {
            alloc,
            lines: Listing::new(alloc),
        }
    }

    /// The texts.
    pub fn lines(&self) -> &[Text]
        ensures { result.now ≡ self.now }
    {
        self.lines.as_slice()
    }

    /// The texts, handed out, which takes no memory.
    pub fn into_lines(self) -> Listing<Text>
        ensures { result ≡ self }
    {
        let DefaultConfigWarnings { alloc: _, lines } = self;
        lines
    }
}

impl Clone for DefaultConfigWarnings {
    ghost is_clone = { λ original copy. copy ≡ original };

    fn clone(&self) -> Result<DefaultConfigWarnings, AllocError> {
        Ok(DefaultConfigWarnings {
            alloc: self.alloc,
            lines: self.lines.clone()?,
        })
    }
}

impl ConfigWarnings for DefaultConfigWarnings {
    ghost use Rattle.std.specs.Prelude.{◌≡◌, map};
    ghost use Rattle.nextest_config_resolution_warnings.specs.Warnings.{text_of};

    ghost has_warned = { λ lines told. lines ≡ map text_of told };

    fn unknown_config_keys(
        &mut self,
        source: &ConfigSource,
        key: &KeyPath,
    ) -> Result<(), AllocError> {
        let text = texts::unknown_key(self.alloc, source.path(), key)?;
        self.lines.push(text)?;
        Ok(())
    }

    fn unknown_reserved_profiles(
        &mut self,
        source: &ConfigSource,
        profile: &str,
    ) -> Result<(), AllocError> {
        let text = texts::unknown_reserved_profile(self.alloc, source.path(), profile)?;
        self.lines.push(text)?;
        Ok(())
    }

    fn deprecated_script_config(&mut self, source: &ConfigSource) -> Result<(), AllocError> {
        let text = texts::deprecated_script_config(self.alloc, source.path())?;
        self.lines.push(text)?;
        Ok(())
    }

    fn empty_script_sections(
        &mut self,
        source: &ConfigSource,
        profile: &str,
        count: usize,
    ) -> Result<(), AllocError> {
        let text = texts::empty_script_sections(self.alloc, source.path(), profile, count)?;
        self.lines.push(text)?;
        Ok(())
    }
}

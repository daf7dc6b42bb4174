// The file that a tool brings.
ghost use Rattle.nextest_config_elements_identifiers.specs.Tools.{ReadsToolConfigFile};

use crate::invalid_identifier::InvalidIdentifier;
use crate::tool_name::ToolName;
use crate::tool_parts::parted;
use nextest_text::Text;
use std::alloc::{AllocError, AllocFailed, Global};
use thiserror::Error;

/// A tool, and the file of settings that it brings.
#[derive(Clone, Debug, PartialEq, Eq)]
pub struct ToolConfigFile {
    /// The tool.
    pub tool: ToolName,
    /// The path of the file, absolute in every accepted configuration.
    pub config_file: Text,
}

impl Drop for ToolConfigFile {
    fn drop(self) {
        let Self {
            tool: _,
            config_file: _,
        } = self;
    }
}

/// The text isn't the name of a tool, `:` and an absolute path.
#[derive(Clone, Copy, Debug, PartialEq, Eq, Error)]
#[error("expected `NAME:PATH`, the name of a tool and an absolute path")]
pub struct BadToolConfig;

/// Why a tool's file wasn't read.
#[derive(Clone, Copy, Debug, PartialEq, Eq, Error)]
pub enum ToolConfigFileError {
    /// It is refused.
    #[error(transparent)]
    Refused(BadToolConfig),
    /// There was no memory, which says nothing of the text.
    #[error("out of memory")]
    OutOfMemory,
}

impl From<AllocError> for ToolConfigFileError {
    ghost use Rattle.std.specs.Prelude.{◌≡◌};
    ghost use Rattle.nextest_config_elements_identifiers.specs.declared.tool_config_file.ToolConfigFileError.TheVariants.{OutOfMemory};

    ghost from_gives = { λ _ error. error ≡ OutOfMemory };

    fn from(_error: AllocError) -> ToolConfigFileError {
        ToolConfigFileError::OutOfMemory
    }
}

impl<T: Drop> From<AllocFailed<T>> for ToolConfigFileError {
    ghost use Rattle.std.specs.Prelude.{◌≡◌};
    ghost use Rattle.nextest_config_elements_identifiers.specs.declared.tool_config_file.ToolConfigFileError.TheVariants.{OutOfMemory};

    ghost from_gives = { λ _ error. error ≡ OutOfMemory };

    fn from(_error: AllocFailed<T>) -> ToolConfigFileError {
        ToolConfigFileError::OutOfMemory
    }
}

impl ToolConfigFile {
    /// The tool and the file of `NAME:PATH`, which is divided at its first `:`. The name is taken
    /// as `ToolName::new` takes it, and the path as it is written. An `Err` says that there is no
    /// `:`, that the name is no tool's, or that the path doesn't begin with `/`; or that there was
    /// no memory, which says nothing of the text.
    pub fn from_text(alloc: Global, text: &str) -> Result<ToolConfigFile, ToolConfigFileError>
        ensures exact { ReadsToolConfigFile text.now result }
    {
        let Some((name, path)) = parted(text) else {
            return Err(ToolConfigFileError::Refused(BadToolConfig));
        };
        if !path.starts_with('/') {
            return Err(ToolConfigFileError::Refused(BadToolConfig));
        }
        match ToolName::new(alloc, name) {
            Ok(tool) => Ok(ToolConfigFile {
                tool,
                config_file: Text::from_str(alloc, path)?,
            }),
            Err(InvalidIdentifier::OutOfMemory) => Err(ToolConfigFileError::OutOfMemory),
            Err(_) => Err(ToolConfigFileError::Refused(BadToolConfig)),
        }
    }
}

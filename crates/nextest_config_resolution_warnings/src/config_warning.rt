// What is told of a configuration file.
use nextest_config_elements_toml::KeyPath;
use nextest_text::Text;
use std::alloc::AllocError;

/// What is told of a configuration file.
#[derive(Debug, PartialEq, Eq, Drop)]
pub enum ConfigWarning {
    /// A key that no key of the configuration is.
    UnknownKey {
        /// Where the key stands.
        key: KeyPath,
    },
    /// A profile with a name that is kept for the runner's own.
    UnknownReservedProfile {
        /// The name of the profile.
        profile: Text,
    },
    /// Setup scripts in the table that held them before.
    DeprecatedScriptConfig,
    /// Rules of a profile that name no script.
    EmptyScriptSections {
        /// The name of the profile.
        profile: Text,
        /// How many rules.
        count: usize,
    },
}

impl Clone for ConfigWarning {
    ghost use Rattle.std.specs.Prelude.{◌≡◌};

    ghost is_clone = { λ original copy. copy ≡ original };

    fn clone(&self) -> Result<ConfigWarning, AllocError> {
        match self {
            ConfigWarning::UnknownKey { key } => {
                Ok(ConfigWarning::UnknownKey { key: key.clone()? })
            }
            ConfigWarning::UnknownReservedProfile { profile } => {
                Ok(ConfigWarning::UnknownReservedProfile {
                    profile: profile.clone()?,
                })
            }
            ConfigWarning::DeprecatedScriptConfig => Ok(ConfigWarning::DeprecatedScriptConfig),
            ConfigWarning::EmptyScriptSections { profile, count } => {
                Ok(ConfigWarning::EmptyScriptSections {
                    profile: profile.clone()?,
                    count: *count,
                })
            }
        }
    }
}

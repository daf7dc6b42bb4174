// Who is told of configuration files.
ghost use Rattle.std.specs.Prelude.{List, [], ◌∷◌, OnErr, OnOk};
ghost use Rattle.nextest_config_resolution_sources.specs.declared.source.ConfigSource.{ConfigSource};
ghost use Rattle.nextest_config_resolution_warnings.specs.Warn.{Keeps, Warns};
ghost use Rattle.nextest_config_resolution_warnings.specs.declared.config_warning.ConfigWarning.{ConfigWarning};
ghost use Rattle.nextest_config_resolution_warnings.specs.declared.config_warning.ConfigWarning.TheVariants.{UnknownKey, UnknownReservedProfile, DeprecatedScriptConfig, EmptyScriptSections};

use nextest_config_elements_toml::KeyPath;
use nextest_config_resolution_sources::ConfigSource;
use std::alloc::AllocError;

/// Who is told of configuration files. Each call tells one warning of the file of `source`, behind
/// those that were told before. It fails only on allocation, and then nothing is told.
pub trait ConfigWarnings {
    // These are the warnings that were told, in order, each with the source of its file.
    ghost has_warned: { Self → List (ConfigSource × ConfigWarning) → Type 0 };

    /// Warns that no key of the configuration is `key`.
    fn unknown_config_keys(
        &mut self,
        source: &ConfigSource,
        key: &KeyPath,
    ) -> Result<(), AllocError>
        ensures ok { OnOk result
            (Warns has_warned self.old self.new ((source.now, UnknownKey key.now) ∷ [])) }
        ensures err { OnErr result (Keeps has_warned self.old self.new) };

    /// Warns that `profile` is kept for a profile of the runner's own, and that the file has one of
    /// that name.
    fn unknown_reserved_profiles(
        &mut self,
        source: &ConfigSource,
        profile: &str,
    ) -> Result<(), AllocError>
        ensures ok { OnOk result (Warns has_warned self.old self.new
            ((source.now, UnknownReservedProfile profile.now) ∷ [])) }
        ensures err { OnErr result (Keeps has_warned self.old self.new) };

    /// Warns that the file has its setup scripts in the table that held them before.
    fn deprecated_script_config(&mut self, source: &ConfigSource) -> Result<(), AllocError>
        ensures ok { OnOk result
            (Warns has_warned self.old self.new ((source.now, DeprecatedScriptConfig) ∷ [])) }
        ensures err { OnErr result (Keeps has_warned self.old self.new) };

    /// Warns that `count` rules of a profile of the file name no script.
    fn empty_script_sections(
        &mut self,
        source: &ConfigSource,
        profile: &str,
        count: usize,
    ) -> Result<(), AllocError>
        ensures ok { OnOk result (Warns has_warned self.old self.new
            ((source.now, EmptyScriptSections profile.now count) ∷ [])) }
        ensures err { OnErr result (Keeps has_warned self.old self.new) };
}

// How a file is told of.
ghost use Rattle.std.specs.Prelude.{[], ◌∷◌, OnErr, OnOk};
ghost use Rattle.toml.specs.View.{table_view};
ghost use Rattle.nextest_config_resolution_warnings.specs.Warn.{Keeps, Warns, WarnsPrefix, told_of, warnings_of};

use crate::config_warning::ConfigWarning;
use crate::file_warnings::warnings_of;
use crate::warnings::ConfigWarnings;
use nextest_config_resolution_sources::ConfigSource;
use std::alloc::{AllocError, Global};
use toml::Table;

/// Warns of `file`, the configuration of `source`, of all that `warnings_of` finds in it, in its
/// order. It fails only on allocation, and then a front of these was told.
pub fn warn_file<W: ConfigWarnings>(
    alloc: Global,
    warnings: &mut W,
    source: &ConfigSource,
    file: &Table,
) -> Result<(), AllocError>
    ensures ok { OnOk result (Warns W.has_warned warnings.old warnings.new
        (told_of source.now (warnings_of (table_view file.now)))) }
    ensures err { OnErr result (WarnsPrefix W.has_warned warnings.old warnings.new
        (told_of source.now (warnings_of (table_view file.now)))) }
{
    let all = warnings_of(alloc, file)?;
    tell_all(warnings, source, all.as_slice())
}

// Tells each of some warnings of the file of a source.
pub(crate) fn tell_all<W: ConfigWarnings>(
    warnings: &mut W,
    source: &ConfigSource,
    all: &[ConfigWarning],
) -> Result<(), AllocError>
    ensures ok { OnOk result
        (Warns W.has_warned warnings.old warnings.new (told_of source.now all.now)) }
    ensures err { OnErr result
        (WarnsPrefix W.has_warned warnings.old warnings.new (told_of source.now all.now)) }
{
    for warning in all {
        tell_one(warnings, source, warning)?;
    }
    Ok(())
}

// Tells a warning of it.
fn tell_one<W: ConfigWarnings>(
    warnings: &mut W,
    source: &ConfigSource,
    warning: &ConfigWarning,
) -> Result<(), AllocError>
    ensures ok { OnOk result
        (Warns W.has_warned warnings.old warnings.new ((source.now, warning.now) ∷ [])) }
    ensures err { OnErr result (Keeps W.has_warned warnings.old warnings.new) }
{
    match warning {
        ConfigWarning::UnknownKey { key } => warnings.unknown_config_keys(source, key),
        ConfigWarning::UnknownReservedProfile { profile } => {
            warnings.unknown_reserved_profiles(source, profile.as_str())
        }
        ConfigWarning::DeprecatedScriptConfig => warnings.deprecated_script_config(source),
        ConfigWarning::EmptyScriptSections { profile, count } => {
            warnings.empty_script_sections(source, profile.as_str(), *count)
        }
    }
}

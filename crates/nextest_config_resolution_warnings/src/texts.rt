// The texts of warnings.
ghost use Rattle.std.specs.Prelude.{◌≡◌, IfOk};
ghost use Rattle.nextest_config_resolution_warnings.specs.Warnings.{text_at};
ghost use Rattle.nextest_config_resolution_warnings.specs.declared.config_warning.ConfigWarning.TheVariants.{UnknownKey, UnknownReservedProfile, DeprecatedScriptConfig, EmptyScriptSections};

use crate::shown::{Shown, ShownKeys};
use nextest_config_elements_toml::KeyPath;
use nextest_text::Text;
use std::alloc::{AllocError, Global};

// That no key of the configuration is this one.
pub(crate) fn unknown_key(alloc: Global, path: &str, key: &KeyPath) -> Result<Text, AllocError>
    ensures { IfOk result (λ text. text ≡ text_at path.now (UnknownKey key.now)) }
{
    let (key, path) = (ShownKeys(key.keys.as_slice()), Shown(path));
    Ok(Text::from(format!(in alloc; "unknown key {key} in {path}")?))
}

// That a profile has a name which is kept for the runner's own.
pub(crate) fn unknown_reserved_profile(
    alloc: Global,
    path: &str,
    profile: &str,
) -> Result<Text, AllocError>
    ensures { IfOk result (λ text. text ≡ text_at path.now (UnknownReservedProfile profile.now)) }
{
    let (profile, path) = (Shown(profile), Shown(path));
    Ok(Text::from(format!(in alloc; "unknown reserved profile {profile} in {path}")?))
}

// That setup scripts stand in the table that held them before.
pub(crate) fn deprecated_script_config(alloc: Global, path: &str) -> Result<Text, AllocError>
    ensures { IfOk result (λ text. text ≡ text_at path.now DeprecatedScriptConfig) }
{
    let path = Shown(path);
    Ok(Text::from(format!(in alloc; "deprecated script table in {path}")?))
}

// That so many rules of a profile name no script.
pub(crate) fn empty_script_sections(
    alloc: Global,
    path: &str,
    profile: &str,
    count: usize,
) -> Result<Text, AllocError>
    ensures { IfOk result
        (λ text. text ≡ text_at path.now (EmptyScriptSections profile.now count)) }
{
    let (profile, path) = (Shown(profile), Shown(path));
    let text = format!(in alloc; "empty script sections {count} in profile {profile} in {path}")?;
    Ok(Text::from(text))
}

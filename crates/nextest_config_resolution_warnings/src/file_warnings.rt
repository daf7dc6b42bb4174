// What is told of a file.
ghost use Rattle.std.specs.Prelude.{◌≡◌, ◌++◌, IfOk, map};
ghost use Rattle.toml.specs.View.{table_view};
ghost use Rattle.nextest_config_resolution_warnings.specs.Reserved.{unknown_reserved};
ghost use Rattle.nextest_config_resolution_warnings.specs.Scripts.{empty_sections, section, sections};
ghost use Rattle.nextest_config_resolution_warnings.specs.Unknown.{unknown_keys};
ghost use Rattle.nextest_config_resolution_warnings.specs.Warn.{old_scripts, section_warnings, warnings_of};
ghost use Rattle.nextest_config_resolution_warnings.specs.declared.config_warning.ConfigWarning.TheVariants.{UnknownKey, UnknownReservedProfile};

use crate::config_warning::ConfigWarning;
use crate::reserved::unknown_reserved_profiles;
use crate::scripts::{defines_old_scripts, empty_in_profile};
use crate::unknown::unknown_keys;
use nextest_config_elements_toml::member;
use nextest_text::{Listing, Text};
use std::alloc::{AllocError, Global};
use toml::{Table, Value};

/// What is told of `file`, a configuration, in this order: its unknown keys; its profiles with a
/// name that is kept for the runner's own; that it defines scripts in the table `script`, which
/// held them before; and, by the bytes of their names, its profiles with script rules that name no
/// script, each with how many those are. Nothing is told of a value with another type than its
/// place has, which its reader refuses. It fails only on allocation.
pub fn warnings_of(alloc: Global, file: &Table) -> Result<Listing<ConfigWarning>, AllocError>
    ensures { IfOk result (λ found. found ≡ warnings_of (table_view file.now)) }
{
    let mut found = Listing::new(alloc);
    push_keys(alloc, &mut found, file)?;
    push_profiles(alloc, &mut found, file)?;
    push_old_scripts(&mut found, defines_old_scripts(file))?;
    push_empty_sections(alloc, &mut found, file)?;
    Ok(found)
}

// Adds the unknown keys of a file.
fn push_keys(
    alloc: Global,
    found: &mut Listing<ConfigWarning>,
    file: &Table,
) -> Result<(), AllocError>
    ensures { IfOk result
        (λ _. found.new ≡ found.old ++ map UnknownKey (unknown_keys (table_view file.now))) }
{
    for key in Vec::from(unknown_keys(alloc, file)?) {
        found.push(ConfigWarning::UnknownKey { key })?;
    }
    Ok(())
}

// Adds its profiles with a reserved name.
fn push_profiles(
    alloc: Global,
    found: &mut Listing<ConfigWarning>,
    file: &Table,
) -> Result<(), AllocError>
    ensures { IfOk result (λ _. found.new
        ≡ found.old ++ map UnknownReservedProfile (unknown_reserved (table_view file.now))) }
{
    for profile in Vec::from(unknown_reserved_profiles(alloc, file)?) {
        found.push(ConfigWarning::UnknownReservedProfile { profile })?;
    }
    Ok(())
}

// Adds that scripts are defined in the table that held them before, if they are.
fn push_old_scripts(found: &mut Listing<ConfigWarning>, are_defined: bool) -> Result<(), AllocError>
    ensures { IfOk result (λ _. found.new ≡ found.old ++ old_scripts are_defined) }
{
    if are_defined {
        found.push(ConfigWarning::DeprecatedScriptConfig)?;
    }
    Ok(())
}

// Adds the profiles of a file that have rules which name no script.
fn push_empty_sections(
    alloc: Global,
    found: &mut Listing<ConfigWarning>,
    file: &Table,
) -> Result<(), AllocError>
    ensures { IfOk result (λ _. found.new
        ≡ found.old ++ section_warnings (empty_sections (table_view file.now))) }
{
    match member(file, "profile") {
        Some(Value::Table(profiles)) => push_sections(alloc, found, profiles),
        _ => Ok(()),
    }
}

// Adds such profiles.
fn push_sections(
    alloc: Global,
    found: &mut Listing<ConfigWarning>,
    profiles: &Table,
) -> Result<(), AllocError>
    ensures { IfOk result (λ _. found.new
        ≡ found.old ++ section_warnings (sections (table_view profiles.now))) }
{
    for (name, profile) in profiles.iter() {
        push_section(alloc, found, name.as_str(), empty_in_profile(profile))?;
    }
    Ok(())
}

// Adds a profile that has so many such rules, if it has any.
fn push_section(
    alloc: Global,
    found: &mut Listing<ConfigWarning>,
    profile: &str,
    count: usize,
) -> Result<(), AllocError>
    ensures { IfOk result
        (λ _. found.new ≡ found.old ++ section_warnings (section profile.now count)) }
{
    if count > 0 {
        let profile = Text::from_str(alloc, profile)?;
        found.push(ConfigWarning::EmptyScriptSections { profile, count })?;
    }
    Ok(())
}

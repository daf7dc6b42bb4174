// What a file defines, and whether it may.
ghost use Rattle.std.specs.Prelude.{◌≡◌, ⊤};
ghost use Rattle.std.specs.List.{flat_map};
ghost use Rattle.nextest_config_resolution_load.specs.Checks as words;
ghost use Rattle.nextest_config_resolution_load.specs.Refusing.{Passes};
ghost use Rattle.nextest_config_resolution_load.specs.Reading.{not_among};

use crate::file_config::FileConfig;
use crate::languages::Languages;
use crate::load_error::LoadError;
use crate::named::{Named, names_of};
use crate::refusing::{bad_name, both_script_tables, feature_not_enabled, repeated_script};
use nextest_config_elements_identifiers::{ConfigIdentifier, ConfigSourceKind};
use nextest_config_elements_versions::{ConfigExperimental, FeatureSet};
use nextest_config_resolution_scripts::{NamedScript, SetupScriptConfig};
use std::alloc::Global;
use std::collections::BTreeSet;

// That the file at a path, by where it comes from and by the features that are known, may define
// what it does.
pub(crate) fn check_defined<R: Languages>(
    alloc: Global,
    cx: &R::Cx,
    features: FeatureSet,
    path: &str,
    kind: &ConfigSourceKind,
    config: &FileConfig,
) -> Result<(), LoadError>
    ensures { Passes (R.is_filter cx.now) R.is_spec R.is_too_deep
        (words.defined_checks features path.now kind.now config.now) (λ _. ⊤) result }
{
    check_tables::<R>(alloc, cx, path, config)?;
    check_features::<R>(alloc, cx, features, path, config)?;
    check_names::<R>(alloc, cx, path, kind, config)?;
    check_repeated::<R>(alloc, cx, path, config)
}

// That its setup scripts stand in one of the two tables that may have them.
fn check_tables<R: Languages>(
    alloc: Global,
    cx: &R::Cx,
    path: &str,
    config: &FileConfig,
) -> Result<(), LoadError>
    ensures { Passes (R.is_filter cx.now) R.is_spec R.is_too_deep
        (words.table_checks path.now config.now) (λ _. ⊤) result }
{
    if has_some(config.old_scripts.as_slice()) && has_scripts(config) {
        return Err(both_script_tables(alloc, path));
    }
    Ok(())
}

// Whether it defines scripts under `scripts`.
fn has_scripts(config: &FileConfig) -> bool
    ensures { result ≡ words.has_scripts config.now }
{
    has_some(config.scripts.setup.as_slice()) || has_some(config.scripts.wrapper.as_slice())
}

// Whether there is one.
fn has_some<T>(all: &[T]) -> bool
    ensures { result ≡ words.has_some all.now }
{
    !all.is_empty()
}

// That the features of its scripts are known.
fn check_features<R: Languages>(
    alloc: Global,
    cx: &R::Cx,
    features: FeatureSet,
    path: &str,
    config: &FileConfig,
) -> Result<(), LoadError>
    ensures { Passes (R.is_filter cx.now) R.is_spec R.is_too_deep
        (words.feature_checks features path.now config.now) (λ _. ⊤) result }
{
    if !(features.setup_scripts || !has_setup(config)) {
        return Err(feature_not_enabled(alloc, path, ConfigExperimental::SetupScripts));
    }
    if !(features.wrapper_scripts || !has_some(config.scripts.wrapper.as_slice())) {
        return Err(feature_not_enabled(alloc, path, ConfigExperimental::WrapperScripts));
    }
    Ok(())
}

// Whether it defines setup scripts.
fn has_setup(config: &FileConfig) -> bool
    ensures { result ≡ words.has_setup config.now }
{
    has_some(config.old_scripts.as_slice()) || has_some(config.scripts.setup.as_slice())
}

// That it may define its groups and scripts.
fn check_names<R: Languages>(
    alloc: Global,
    cx: &R::Cx,
    path: &str,
    kind: &ConfigSourceKind,
    config: &FileConfig,
) -> Result<(), LoadError>
    ensures { Passes (R.is_filter cx.now) R.is_spec R.is_too_deep
        (words.name_checks path.now kind.now config.now) (λ _. ⊤) result }
{
    check_each::<R, _>(alloc, cx, path, kind, config.groups.as_slice())?;
    check_each::<R, _>(alloc, cx, path, kind, config.old_scripts.as_slice())?;
    check_each::<R, _>(alloc, cx, path, kind, config.scripts.setup.as_slice())?;
    check_each::<R, _>(alloc, cx, path, kind, config.scripts.wrapper.as_slice())
}

// That it may define each of these.
fn check_each<R: Languages, T: Named>(
    alloc: Global,
    cx: &R::Cx,
    path: &str,
    kind: &ConfigSourceKind,
    all: &[T],
) -> Result<(), LoadError>
    ensures { Passes (R.is_filter cx.now) R.is_spec R.is_too_deep
        (flat_map (λ it. words.may_name path.now kind.now (T.name_of it)) all.now) (λ _. ⊤) result }
{
    for it in all {
        if !may_define(kind, it.name()) {
            return Err(bad_name(alloc, path, it.name().as_str()));
        }
    }
    Ok(())
}

// Whether a source may define what has a name.
fn may_define(kind: &ConfigSourceKind, name: &ConfigIdentifier) -> bool
    ensures { result ≡ words.may_define kind.now name.now }
{
    match kind {
        ConfigSourceKind::Tool(tool) => match name.tool_components() {
            Some((owner, _)) => owner == tool.as_str(),
            None => false,
        },
        ConfigSourceKind::ExplicitRepository | ConfigSourceKind::DiscoveredRepository => {
            !name.is_tool_identifier()
        }
    }
}

// That no name is that of a setup script and of a wrapper script.
fn check_repeated<R: Languages>(
    alloc: Global,
    cx: &R::Cx,
    path: &str,
    config: &FileConfig,
) -> Result<(), LoadError>
    ensures { Passes (R.is_filter cx.now) R.is_spec R.is_too_deep
        (words.repeated_checks path.now config.now) (λ _. ⊤) result }
{
    let wrappers = names_of(alloc, config.scripts.wrapper.as_slice())?;
    check_others::<R>(alloc, cx, path, &wrappers, config.old_scripts.as_slice())?;
    check_others::<R>(alloc, cx, path, &wrappers, config.scripts.setup.as_slice())
}

// That these setup scripts have other names than those.
fn check_others<R: Languages>(
    alloc: Global,
    cx: &R::Cx,
    path: &str,
    names: &BTreeSet<&str>,
    scripts: &[NamedScript<SetupScriptConfig>],
) -> Result<(), LoadError>
    ensures { Passes (R.is_filter cx.now) R.is_spec R.is_too_deep
        (flat_map (λ script. not_among path.now names.now script.id) scripts.now) (λ _. ⊤) result }
{
    for script in scripts {
        if names.contains(script.id.as_str()) {
            return Err(repeated_script(alloc, path, script.id.as_str()));
        }
    }
    Ok(())
}

// What the sources of a configuration come to.
ghost use Rattle.std.specs.Prelude.{◌≡◌, ⊤, [], ◌∷◌, IfOk, OnOk};
ghost use Rattle.toml.specs.Data.{Members, table};
ghost use Rattle.toml.specs.View.{table_view};
ghost use Rattle.nextest_config_resolution_inheritance.specs.Inheritance.{Rise};
ghost use Rattle.nextest_config_resolution_tree.specs.Ends.{IsListOf};
ghost use Rattle.nextest_config_resolution_tree.specs.RunOf.{list_of};
ghost use Rattle.nextest_config_resolution_load.specs.Checks.{bad_merged, config_in, inheritance, merged_checks, named_checks, parents_of, value_checks};
ghost use Rattle.nextest_config_resolution_load.specs.Load.{IsLoaded, merged_of};
ghost use Rattle.nextest_config_resolution_load.specs.Reading.{AreReadSources, IsCompleted, all_placed, downward, early_checks, overrides_of, read_as, scripts_of, values_of};
ghost use Rattle.nextest_config_resolution_load.specs.Refusing.{Passes};
ghost use Rattle.nextest_config_resolution_load.specs.Warn.{AreKept, WarnsAs, warnings_in};

use crate::default_filters::read_defaults;
use crate::files::read_files;
use crate::groups::check_groups;
use crate::languages::Languages;
use crate::load_error::LoadError;
use crate::load_fault::LoadFault;
use crate::loaded_config::{LoadedConfig, ReadConfig};
use crate::merging::merged;
use crate::named_scripts::check_scripts;
use crate::placed_file::{ReadSources, SourceRules};
use crate::reading::read_config;
use nextest_config_elements_toml::ValueError;
use nextest_config_elements_versions::FeatureSet;
use nextest_config_resolution_inheritance::{InheritanceError, check_inheritance};
use nextest_config_resolution_scripts::ScriptType;
use nextest_config_resolution_sources::{ConfigSource, counted};
use nextest_config_resolution_tree::MergedTree;
use nextest_config_resolution_warnings::{ConfigWarnings, KeptWarnings};
use nextest_text::Listing;
use std::alloc::{AllocError, Global};
use toml::Table;

/// What the sources of a configuration come to, those that count, each over the lower ones and over
/// what is built in. Filters are read in `cx`, and `features` are the experimental ones that are
/// known. Setup scripts that a file has under `script` count as if they stood under
/// `scripts.setup`.
///
/// # Errors
///
/// `Refused` tells of the first rule that is broken. They are looked at in this order. Of each
/// source, the lowest first: that it was read (a file that was looked for may be missing); that its
/// text is TOML; that each value can stand at its key, by the bytes of the keys; that it doesn't
/// define scripts under `script` and under `scripts`; that the features of its scripts are known,
/// first that of setup scripts; that it may define its groups, its setup scripts and its wrapper
/// scripts; that no setup script has the name of a wrapper script; and of each profile, by their
/// names, of its overrides and then of its script rules, in their order: that it says on which
/// platforms or tests it holds, that it has no filter beside a default filter, that the specs of
/// host and target, its filter and its default filter are some, and that a filter beside a
/// `list-wrapper` asks nothing that only tests tell. Then, of what the sources come to: that each
/// value can stand at its key; that each group that an override names is defined, then each setup
/// script that a script rule names, and then each wrapper script; how profiles inherit, as
/// `check_inheritance` says; and of each profile that sets a default filter, by the bytes of their
/// names, that it is a filter. A filter that is too deep for the reader may be refused, too. Want
/// of memory says nothing of the sources.
pub fn load<R: Languages>(
    alloc: Global,
    built_in: &Table,
    cx: &R::Cx,
    sources: &[ConfigSource],
    features: FeatureSet,
) -> Result<LoadedConfig<R::Filter, R::Spec>, LoadError>
    ensures loaded { IsLoaded (R.is_filter cx.now) R.is_spec R.is_too_deep features
        (table_view built_in.now) sources.now result }
    ensures rises { IfOk result (λ it. Rise (parents_of (merged_of it).profiles)) }
{
    let mut kept = None;
    let read = read_sources::<R>(alloc, built_in, cx, sources, features, &mut kept)?;
    accepted::<R>(alloc, cx, read.config, read.rules)
}

/// What `load` gives of the sources, and `warnings` is told what no configuration knows in the
/// files: in each that counts and is there, the lowest first, as `warn_file` tells it, with its
/// source.
///
/// # Errors
///
/// As `load`. Where the sources are refused no warning was told; where there was no memory, a front
/// of them was.
pub fn load_with_warnings<R: Languages, W: ConfigWarnings>(
    alloc: Global,
    built_in: &Table,
    cx: &R::Cx,
    sources: &[ConfigSource],
    features: FeatureSet,
    warnings: &mut W,
) -> Result<LoadedConfig<R::Filter, R::Spec>, LoadError>
    ensures loaded { IsLoaded (R.is_filter cx.now) R.is_spec R.is_too_deep features
        (table_view built_in.now) sources.now result }
    ensures rises { IfOk result (λ it. Rise (parents_of (merged_of it).profiles)) }
    ensures warnings { WarnsAs W.has_warned warnings.old warnings.new
        (warnings_in sources.now) result }
{
    let mut kept = Some(KeptWarnings::new(alloc));
    let read = read_sources::<R>(alloc, built_in, cx, sources, features, &mut kept)?;
    match accepted::<R>(alloc, cx, read.config, read.rules) {
        Ok(config) => {
            let told = kept.unwrap_or(KeptWarnings::new(alloc));
            told.tell(warnings)?;
            Ok(config)
        }
        Err(error) => Err(error),
    }
}

// What sources come to, before it is asked what their rules name and how profiles inherit. What is
// told of their files is kept, if anything is.
fn read_sources<'s, R: Languages>(
    alloc: Global,
    built_in: &Table,
    cx: &R::Cx,
    sources: &'s [ConfigSource],
    features: FeatureSet,
    kept: &mut Option<KeptWarnings<'s>>,
) -> Result<ReadSources<R::Filter, R::Spec>, LoadError>
    ensures read { let lowest = table_view built_in.now in Passes
        (R.is_filter cx.now) R.is_spec R.is_too_deep (early_checks features lowest sources.now)
        (AreReadSources (R.is_filter cx.now) R.is_spec lowest sources.now) result }
    ensures kept { OnOk result (AreKept kept.old kept.new (warnings_in sources.now)) }
{
    let counted = counted(alloc, sources)?;
    let read = read_files::<R>(alloc, cx, features, counted.as_slice(), kept)?;
    let tree = merged(alloc, built_in, read.files)?;
    let config = read_tree::<R>(alloc, cx, &tree)?;
    Ok(ReadSources {
        config,
        rules: read.rules,
    })
}

// What a merged tree says, whose values are all such as their keys can have.
fn read_tree<R: Languages>(
    alloc: Global,
    cx: &R::Cx,
    tree: &MergedTree,
) -> Result<ReadConfig, LoadError>
    ensures read { (top : Members) → IsListOf (list_of tree.now) (table top)
        → Passes (R.is_filter cx.now) R.is_spec R.is_too_deep
        (value_checks bad_merged (config_in top)) (λ it. config_in top ≡ read_as it) result }
    ensures rises { IfOk result (λ it. Rise (parents_of (values_of it).profiles)) }
{
    match read_config(alloc, tree) {
        Ok(config) => Ok(config),
        Err(ValueError::Refused(value)) => {
            Err(LoadError::Refused(LoadFault::BadMergedValue { value }))
        }
        Err(ValueError::OutOfMemory) => Err(LoadError::OutOfMemory),
    }
}

// A configuration, where what its rules name is defined, its profiles inherit as they may, and what
// they set as their default filters is some.
fn accepted<R: Languages>(
    alloc: Global,
    cx: &R::Cx,
    read: ReadConfig,
    rules: Vec<SourceRules<R::Filter, R::Spec>>,
) -> Result<LoadedConfig<R::Filter, R::Spec>, LoadError>
    requires rises { Rise (parents_of (values_of read).profiles) }
    ensures { Passes (R.is_filter cx.now) R.is_spec R.is_too_deep
        (merged_checks (all_placed (overrides_of rules.items)) (all_placed (scripts_of rules.items))
        (read_as read)) (IsCompleted (R.is_filter cx.now) read rules.items) result }
{
    check_names::<R>(alloc, cx, &read, rules.as_slice())?;
    check_parents::<R>(alloc, cx, &read)?;
    let default_filters = read_defaults::<R>(alloc, cx, read.profiles.as_slice())?;
    let rules = gathered(alloc, rules)?;
    let ReadConfig {
        profiles,
        groups,
        scripts,
        store_dir,
    } = read;
    Ok(LoadedConfig {
        profiles,
        default_filters,
        rules: rules.overrides,
        script_rules: rules.scripts,
        groups,
        scripts,
        store_dir,
    })
}

// That the groups and scripts that rules name are defined.
fn check_names<R: Languages>(
    alloc: Global,
    cx: &R::Cx,
    read: &ReadConfig,
    rules: &[SourceRules<R::Filter, R::Spec>],
) -> Result<(), LoadError>
    ensures { Passes (R.is_filter cx.now) R.is_spec R.is_too_deep
        (named_checks (all_placed (overrides_of rules.now)) (all_placed (scripts_of rules.now))
        (values_of read.now)) (λ _. ⊤) result }
{
    check_groups::<R>(alloc, cx, read.groups.as_slice(), rules)?;
    check_scripts::<R, _>(
        alloc,
        cx,
        ScriptType::Setup,
        read.scripts.setup.as_slice(),
        rules,
    )?;
    check_scripts::<R, _>(
        alloc,
        cx,
        ScriptType::Wrapper,
        read.scripts.wrapper.as_slice(),
        rules,
    )
}

// That profiles inherit as they may.
fn check_parents<R: Languages>(
    alloc: Global,
    cx: &R::Cx,
    read: &ReadConfig,
) -> Result<(), LoadError>
    requires rises { Rise (parents_of (values_of read.now).profiles) }
    ensures { Passes (R.is_filter cx.now) R.is_spec R.is_too_deep
        (inheritance (parents_of (values_of read.now).profiles) ∷ []) (λ _. ⊤) result }
{
    match check_inheritance(alloc, read.profiles.as_slice()) {
        Ok(()) => Ok(()),
        Err(InheritanceError::Refused(fault)) => {
            Err(LoadError::Refused(LoadFault::Inheritance(fault)))
        }
        Err(InheritanceError::OutOfMemory) => Err(LoadError::OutOfMemory),
    }
}

// The rules of some sources, the last source first.
fn gathered<F: Drop, S: Drop>(
    alloc: Global,
    rules: Vec<SourceRules<F, S>>,
) -> Result<SourceRules<F, S>, AllocError>
    ensures overrides { IfOk result
        (λ it. it.overrides ≡ downward (λ own. own.overrides) rules.items) }
    ensures scripts { IfOk result (λ it. it.scripts ≡ downward (λ own. own.scripts) rules.items) }
{
    let mut sources = rules;
    sources.reverse();
    let mut overrides = Vec::new(alloc);
    let mut scripts = Vec::new(alloc);
    for own in sources {
        let mut own_overrides = Vec::from(own.overrides);
        overrides.append(&mut own_overrides)?;
        let mut own_scripts = Vec::from(own.scripts);
        scripts.append(&mut own_scripts)?;
    }
    Ok(SourceRules {
        overrides: Listing::from(overrides),
        scripts: Listing::from(scripts),
    })
}

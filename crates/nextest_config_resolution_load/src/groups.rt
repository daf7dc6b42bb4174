// The groups of tests that overrides name.
ghost use Rattle.std.specs.Prelude.{⊤, map, option_copied};
ghost use Rattle.std.specs.List.{flat_map};
ghost use Rattle.nextest_config_resolution_load.specs.Reading.{all_placed, has_name, overrides_of, placed_in};
ghost use Rattle.nextest_config_resolution_load.specs.Refusing.{Passes};
ghost use Rattle.nextest_config_resolution_load.specs.Rules.{group_checks, group_checks_of, is_defined};

use crate::languages::Languages;
use crate::load_error::LoadError;
use crate::loaded_rule::LoadedOverride;
use crate::named::names_of;
use crate::placed_file::SourceRules;
use crate::refusing::unknown_group;
use nextest_config_elements_identifiers::TestGroup;
use nextest_config_resolution_keys::get_value;
use nextest_config_resolution_overrides::{NamedGroup, OverrideId, TestGroupKey};
use std::alloc::Global;
use std::collections::BTreeSet;

// That each group that overrides name is defined, of the overrides of some sources one after
// another.
pub(crate) fn check_groups<R: Languages>(
    alloc: Global,
    cx: &R::Cx,
    groups: &[NamedGroup],
    rules: &[SourceRules<R::Filter, R::Spec>],
) -> Result<(), LoadError>
    ensures { Passes (R.is_filter cx.now) R.is_spec R.is_too_deep
        (flat_map (group_checks (is_defined groups.now)) (all_placed (overrides_of rules.now)))
        (λ _. ⊤) result }
{
    let names = names_of(alloc, groups)?;
    for own in rules {
        check_own::<R>(alloc, cx, &names, own.overrides.as_slice())?;
    }
    Ok(())
}

// Those of one source, where these are the names of the groups.
fn check_own<R: Languages>(
    alloc: Global,
    cx: &R::Cx,
    names: &BTreeSet<&str>,
    rules: &[LoadedOverride<R::Filter, R::Spec>],
) -> Result<(), LoadError>
    ensures { Passes (R.is_filter cx.now) R.is_spec R.is_too_deep
        (flat_map (group_checks (has_name names.now)) (map placed_in rules.now)) (λ _. ⊤) result }
{
    for rule in rules {
        check_group::<R>(
            alloc,
            cx,
            names,
            &rule.placed.id,
            get_value::<TestGroupKey, _>(&rule.placed.config),
        )?;
    }
    Ok(())
}

// That of one override.
fn check_group<R: Languages>(
    alloc: Global,
    cx: &R::Cx,
    names: &BTreeSet<&str>,
    id: &OverrideId,
    group: Option<&TestGroup>,
) -> Result<(), LoadError>
    ensures { Passes (R.is_filter cx.now) R.is_spec R.is_too_deep
        (group_checks_of (has_name names.now) id.now (option_copied group.entry)) (λ _. ⊤) result }
{
    match group {
        None | Some(TestGroup::Global) => Ok(()),
        Some(TestGroup::Custom(name)) => {
            if names.contains(name.as_str()) {
                return Ok(());
            }
            Err(unknown_group(alloc, id, name.as_str()))
        }
    }
}

// The scripts that script rules name.
ghost use Rattle.std.specs.Prelude.{⊤, map};
ghost use Rattle.std.specs.List.{flat_map};
ghost use Rattle.nextest_config_resolution_load.specs.Reading.{all_placed, has_name, placed_in, scripts_of};
ghost use Rattle.nextest_config_resolution_load.specs.Refusing.{Passes};
ghost use Rattle.nextest_config_resolution_load.specs.Rules as words;

use crate::languages::Languages;
use crate::load_error::LoadError;
use crate::loaded_rule::LoadedScriptRule;
use crate::named::names_of;
use crate::placed_file::SourceRules;
use crate::refusing::{unknown_script, unknown_wrapper};
use nextest_config_resolution_scripts::{
    NamedScript, PlacedScriptRule, ScriptId, ScriptRuleId, ScriptType,
};
use std::alloc::Global;
use std::collections::BTreeSet;

// That each script of a kind that script rules name is among some scripts, of the rules of some
// sources one after another.
pub(crate) fn check_scripts<R: Languages, T>(
    alloc: Global,
    cx: &R::Cx,
    kind: ScriptType,
    scripts: &[NamedScript<T>],
    rules: &[SourceRules<R::Filter, R::Spec>],
) -> Result<(), LoadError>
    ensures { Passes (R.is_filter cx.now) R.is_spec R.is_too_deep (flat_map (words.script_checks
        kind (words.has_script scripts.now)) (all_placed (scripts_of rules.now))) (λ _. ⊤) result }
{
    let names = names_of(alloc, scripts)?;
    for own in rules {
        check_own::<R>(alloc, cx, kind, &names, own.scripts.as_slice())?;
    }
    Ok(())
}

// Those of one source, where these are the names of the scripts.
fn check_own<R: Languages>(
    alloc: Global,
    cx: &R::Cx,
    kind: ScriptType,
    names: &BTreeSet<&str>,
    rules: &[LoadedScriptRule<R::Filter, R::Spec>],
) -> Result<(), LoadError>
    ensures { Passes (R.is_filter cx.now) R.is_spec R.is_too_deep (flat_map
        (words.script_checks kind (has_name names.now)) (map placed_in rules.now)) (λ _. ⊤) result }
{
    for rule in rules {
        check_rule::<R>(alloc, cx, kind, names, &rule.placed)?;
    }
    Ok(())
}

// Those of one rule.
fn check_rule<R: Languages>(
    alloc: Global,
    cx: &R::Cx,
    kind: ScriptType,
    names: &BTreeSet<&str>,
    rule: &PlacedScriptRule,
) -> Result<(), LoadError>
    ensures { Passes (R.is_filter cx.now) R.is_spec R.is_too_deep
        (words.script_checks kind (has_name names.now) rule.now) (λ _. ⊤) result }
{
    match kind {
        ScriptType::Setup => {
            check_ids::<R>(alloc, cx, names, &rule.id, rule.config.setup.as_slice())
        }
        ScriptType::Wrapper => check_both::<R>(alloc, cx, names, rule),
    }
}

// The setup scripts of one rule.
fn check_ids<R: Languages>(
    alloc: Global,
    cx: &R::Cx,
    names: &BTreeSet<&str>,
    rule: &ScriptRuleId,
    ids: &[ScriptId],
) -> Result<(), LoadError>
    ensures { Passes (R.is_filter cx.now) R.is_spec R.is_too_deep
        (flat_map (words.setup_check (has_name names.now) rule.now) ids.now) (λ _. ⊤) result }
{
    for id in ids {
        if !names.contains(id.as_str()) {
            return Err(unknown_script(alloc, rule, id.as_str()));
        }
    }
    Ok(())
}

// The wrapper scripts of one rule.
fn check_both<R: Languages>(
    alloc: Global,
    cx: &R::Cx,
    names: &BTreeSet<&str>,
    rule: &PlacedScriptRule,
) -> Result<(), LoadError>
    ensures { Passes (R.is_filter cx.now) R.is_spec R.is_too_deep
        (words.wrapper_checks (has_name names.now) rule.now) (λ _. ⊤) result }
{
    check_wrapper::<R>(alloc, cx, names, &rule.id, &rule.config.list_wrapper)?;
    check_wrapper::<R>(alloc, cx, names, &rule.id, &rule.config.run_wrapper)
}

// One that a rule may name.
fn check_wrapper<R: Languages>(
    alloc: Global,
    cx: &R::Cx,
    names: &BTreeSet<&str>,
    rule: &ScriptRuleId,
    id: &Option<ScriptId>,
) -> Result<(), LoadError>
    ensures { Passes (R.is_filter cx.now) R.is_spec R.is_too_deep
        (words.wrapper_check (has_name names.now) rule.now id.now) (λ _. ⊤) result }
{
    match id {
        None => Ok(()),
        Some(id) => {
            if names.contains(id.as_str()) {
                return Ok(());
            }
            Err(unknown_wrapper(alloc, rule, id.as_str()))
        }
    }
}

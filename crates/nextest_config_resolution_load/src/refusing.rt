// How a configuration is refused.
ghost use Rattle.std.specs.Prelude.{◌≡◌, IfOk};
ghost use Rattle.nextest_config_resolution_load.specs.Refusing.{IsRefused};
ghost use Rattle.nextest_config_resolution_load.specs.Checks as words;
ghost use Rattle.nextest_config_resolution_load.specs.RuleIds.{rule_of};

use crate::languages::FilterPurpose;
use crate::load_error::LoadError;
use crate::load_fault::{LoadFault, PlatformSide};
use crate::rule_id::RuleRef;
use nextest_config_elements_toml::BadValue;
use nextest_config_elements_versions::ConfigExperimental;
use nextest_config_resolution_overrides::OverrideId;
use nextest_config_resolution_scripts::ScriptRuleId;
use nextest_text::Text;
use std::alloc::{AllocError, Global};

// Refuses a source that wasn't read.
pub(crate) fn unread(alloc: Global, path: &str, cause: &str) -> LoadError
    ensures { IsRefused (words.unread path.now) result }
{
    match (Text::from_str(alloc, path), Text::from_str(alloc, cause)) {
        (Ok(path), Ok(cause)) => LoadError::Refused(LoadFault::Unread { path, cause }),
        _ => LoadError::OutOfMemory,
    }
}

// Refuses a text that is no TOML.
pub(crate) fn no_toml(alloc: Global, path: &str, message: Text) -> LoadError
    ensures { IsRefused (words.no_toml path.now) result }
{
    match Text::from_str(alloc, path) {
        Ok(path) => LoadError::Refused(LoadFault::Toml { path, message }),
        Err(AllocError) => LoadError::OutOfMemory,
    }
}

// Refuses a value of a file.
pub(crate) fn bad_value(alloc: Global, path: &str, value: BadValue) -> LoadError
    ensures { IsRefused (words.bad_value path.now value.path.keys) result }
{
    match Text::from_str(alloc, path) {
        Ok(path) => LoadError::Refused(LoadFault::BadValue { path, value }),
        Err(AllocError) => LoadError::OutOfMemory,
    }
}

// Refuses the name of a group or script that a file may not define.
pub(crate) fn bad_name(alloc: Global, path: &str, name: &str) -> LoadError
    ensures { IsRefused (words.bad_name path.now name.now) result }
{
    match (Text::from_str(alloc, path), Text::from_str(alloc, name)) {
        (Ok(path), Ok(name)) => LoadError::Refused(LoadFault::BadName { path, name }),
        _ => LoadError::OutOfMemory,
    }
}

// Refuses a file with scripts in both tables.
pub(crate) fn both_script_tables(alloc: Global, path: &str) -> LoadError
    ensures { IsRefused (words.both_script_tables path.now) result }
{
    match Text::from_str(alloc, path) {
        Ok(path) => LoadError::Refused(LoadFault::BothScriptTables { path }),
        Err(AllocError) => LoadError::OutOfMemory,
    }
}

// Refuses a file with scripts whose feature isn't known.
pub(crate) fn feature_not_enabled(
    alloc: Global,
    path: &str,
    feature: ConfigExperimental,
) -> LoadError
    ensures { IsRefused (words.feature_not_enabled path.now feature) result }
{
    match Text::from_str(alloc, path) {
        Ok(path) => LoadError::Refused(LoadFault::FeatureNotEnabled { path, feature }),
        Err(AllocError) => LoadError::OutOfMemory,
    }
}

// Refuses a name of a setup script and a wrapper script.
pub(crate) fn repeated_script(alloc: Global, path: &str, script: &str) -> LoadError
    ensures { IsRefused (words.repeated_script path.now script.now) result }
{
    match (Text::from_str(alloc, path), Text::from_str(alloc, script)) {
        (Ok(path), Ok(script)) => LoadError::Refused(LoadFault::RepeatedScript { path, script }),
        _ => LoadError::OutOfMemory,
    }
}

// Refuses a rule that says neither on which platforms nor on which tests it holds.
pub(crate) fn no_constraint(rule: RuleRef<'_>) -> LoadError
    ensures { IsRefused (words.no_constraint (rule_of rule.entry)) result }
{
    match rule.owned() {
        Ok(rule) => LoadError::Refused(LoadFault::NoConstraint { rule }),
        Err(AllocError) => LoadError::OutOfMemory,
    }
}

// Refuses a rule with a filter and a default filter.
pub(crate) fn both_filters(rule: RuleRef<'_>) -> LoadError
    ensures { IsRefused (words.filter_and_default_filter (rule_of rule.entry)) result }
{
    match rule.owned() {
        Ok(rule) => LoadError::Refused(LoadFault::FilterAndDefaultFilter { rule }),
        Err(AllocError) => LoadError::OutOfMemory,
    }
}

// Refuses what a rule has as a platform spec.
pub(crate) fn bad_spec(
    alloc: Global,
    rule: RuleRef<'_>,
    side: PlatformSide,
    spec: &str,
) -> LoadError
    ensures { IsRefused (words.bad_spec (rule_of rule.entry) side) result }
{
    match (rule.owned(), Text::from_str(alloc, spec)) {
        (Ok(rule), Ok(spec)) => LoadError::Refused(LoadFault::BadSpec { rule, side, spec }),
        _ => LoadError::OutOfMemory,
    }
}

// Refuses what a rule has as a filter.
pub(crate) fn bad_rule_filter(
    alloc: Global,
    rule: RuleRef<'_>,
    purpose: FilterPurpose,
    filter: &str,
) -> LoadError
    ensures { IsRefused (words.bad_rule_filter (rule_of rule.entry) purpose) result }
{
    match (rule.owned(), Text::from_str(alloc, filter)) {
        (Ok(rule), Ok(filter)) => LoadError::Refused(LoadFault::BadRuleFilter {
            rule,
            purpose,
            filter,
        }),
        _ => LoadError::OutOfMemory,
    }
}

// An override by where it is written, once more.
fn copied(rule: &OverrideId) -> Result<OverrideId, AllocError>
    ensures { IfOk result (λ it. it ≡ rule.now) }
{
    Ok(rule.clone()?)
}

// A script rule by where it is written, once more.
fn script_copied(rule: &ScriptRuleId) -> Result<ScriptRuleId, AllocError>
    ensures { IfOk result (λ it. it ≡ rule.now) }
{
    Ok(rule.clone()?)
}

// Refuses a setup script that a script rule names and nothing defines.
pub(crate) fn unknown_script(alloc: Global, rule: &ScriptRuleId, script: &str) -> LoadError
    ensures { IsRefused (words.unknown_script rule.now script.now) result }
{
    match (script_copied(rule), Text::from_str(alloc, script)) {
        (Ok(rule), Ok(script)) => LoadError::Refused(LoadFault::UnknownScript { rule, script }),
        _ => LoadError::OutOfMemory,
    }
}

// Refuses a wrapper script that a script rule names and nothing defines.
pub(crate) fn unknown_wrapper(alloc: Global, rule: &ScriptRuleId, script: &str) -> LoadError
    ensures { IsRefused (words.unknown_wrapper rule.now script.now) result }
{
    match (script_copied(rule), Text::from_str(alloc, script)) {
        (Ok(rule), Ok(script)) => LoadError::Refused(LoadFault::UnknownWrapper { rule, script }),
        _ => LoadError::OutOfMemory,
    }
}

// Refuses a group that an override names and nothing defines.
pub(crate) fn unknown_group(alloc: Global, rule: &OverrideId, group: &str) -> LoadError
    ensures { IsRefused (words.unknown_group rule.now group.now) result }
{
    match (copied(rule), Text::from_str(alloc, group)) {
        (Ok(rule), Ok(group)) => LoadError::Refused(LoadFault::UnknownGroup { rule, group }),
        _ => LoadError::OutOfMemory,
    }
}

// Refuses what a profile sets as its default filter.
pub(crate) fn bad_filter(alloc: Global, profile: &str, filter: &str) -> LoadError
    ensures { IsRefused (words.bad_filter profile.now) result }
{
    match (
        Text::from_str(alloc, profile),
        Text::from_str(alloc, filter),
    ) {
        (Ok(profile), Ok(filter)) => LoadError::Refused(LoadFault::BadFilter { profile, filter }),
        _ => LoadError::OutOfMemory,
    }
}

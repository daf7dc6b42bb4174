// The rules of the profiles of a file.
ghost use Rattle.std.specs.Prelude.{◌≡◌, ◌++◌, IfOk};
ghost use Rattle.std.specs.List.{flat_map};
ghost use Rattle.nextest_config_resolution_load.specs.Checks.{rules_in_file};
ghost use Rattle.nextest_config_resolution_load.specs.Reading.{AreReadInFile, rules_of_profile, rules_of_profiles};
ghost use Rattle.nextest_config_resolution_load.specs.Refusing.{Passes};
ghost use Rattle.nextest_config_resolution_load.specs.Rules.{profile_checks};

use crate::file_config::ProfileRules;
use crate::languages::Languages;
use crate::load_error::LoadError;
use crate::placed_file::SourceRules;
use crate::placing::{placed_overrides, placed_scripts};
use crate::rules::load_rules;
use nextest_config_resolution_overrides::PlacedOverride;
use nextest_config_resolution_scripts::PlacedScriptRule;
use nextest_text::Listing;
use std::alloc::{AllocError, Global};

// Those of all profiles, where each keeps what is checked of it.
pub(crate) fn load_profiles<R: Languages>(
    alloc: Global,
    cx: &R::Cx,
    path: &str,
    profiles: Listing<ProfileRules>,
) -> Result<SourceRules<R::Filter, R::Spec>, LoadError>
    ensures { Passes (R.is_filter cx.now) R.is_spec R.is_too_deep
        (flat_map (profile_checks path.now) profiles) (λ it. AreReadInFile
        (R.is_filter cx.now) R.is_spec (rules_of_profiles path.now profiles) it) result }
{
    let mut rules = SourceRules {
        overrides: Listing::new(alloc),
        scripts: Listing::new(alloc),
    };
    for profile in Vec::from(profiles) {
        let own = load_profile::<R>(alloc, cx, path, profile)?;
        rules = joined(rules, own)?;
    }
    Ok(rules)
}

// Rules, and others behind them.
fn joined<F: Drop, S: Drop>(
    rules: SourceRules<F, S>,
    own: SourceRules<F, S>,
) -> Result<SourceRules<F, S>, AllocError>
    ensures overrides { IfOk result (λ it. it.overrides ≡ rules.overrides ++ own.overrides) }
    ensures scripts { IfOk result (λ it. it.scripts ≡ rules.scripts ++ own.scripts) }
{
    Ok(SourceRules {
        overrides: appended(rules.overrides, own.overrides)?,
        scripts: appended(rules.scripts, own.scripts)?,
    })
}

// A list with another one behind it.
fn appended<T: Drop>(front: Listing<T>, rest: Listing<T>) -> Result<Listing<T>, AllocError>
    ensures { IfOk result (λ it. it ≡ front ++ rest) }
{
    let mut all = Vec::from(front);
    let mut rest = Vec::from(rest);
    all.append(&mut rest)?;
    Ok(Listing::from(all))
}

// Those of one profile.
fn load_profile<R: Languages>(
    alloc: Global,
    cx: &R::Cx,
    path: &str,
    rules: ProfileRules,
) -> Result<SourceRules<R::Filter, R::Spec>, LoadError>
    ensures { Passes (R.is_filter cx.now) R.is_spec R.is_too_deep (profile_checks path.now rules)
        (λ it. AreReadInFile (R.is_filter cx.now) R.is_spec (rules_of_profile path.now rules) it)
        result }
{
    let ProfileRules {
        profile,
        overrides,
        scripts,
    } = rules;
    let placed = placed_overrides(alloc, path, &profile, overrides)?;
    let overrides = load_rules::<R, PlacedOverride>(alloc, cx, placed)?;
    let placed = placed_scripts(alloc, path, &profile, scripts)?;
    let scripts = load_rules::<R, PlacedScriptRule>(alloc, cx, placed)?;
    Ok(SourceRules { overrides, scripts })
}

// The rules of a profile, each with where it is written.
ghost use Rattle.std.specs.Prelude.{◌≡◌, IfOk, map};
ghost use Rattle.std.specs.List.{enumerate_from};
ghost use Rattle.nextest_config_resolution_load.specs.Rules as words;

use nextest_config_resolution_overrides::{OverrideConfig, OverrideId, PlacedOverride};
use nextest_config_resolution_scripts::{PlacedScriptRule, ScriptRuleConfig, ScriptRuleId};
use nextest_text::{Listing, Text};
use std::alloc::{AllocError, Global};

// Its overrides, in the file at a path.
pub(crate) fn placed_overrides(
    alloc: Global,
    path: &str,
    profile: &Text,
    overrides: Listing<OverrideConfig>,
) -> Result<Vec<PlacedOverride>, AllocError>
    ensures { IfOk result
        (λ it. it.items ≡ map (words.placed_at path.now profile.now) (enumerate_from 0 overrides)) }
{
    let mut rules = Vec::new(alloc);
    for (index, config) in Vec::from(overrides).into_iter().enumerate() {
        let id = OverrideId {
            file: Text::from_str(alloc, path)?,
            profile: profile.clone()?,
            index,
        };
        rules.push(PlacedOverride { id, config })?;
    }
    Ok(rules)
}

// Its script rules.
pub(crate) fn placed_scripts(
    alloc: Global,
    path: &str,
    profile: &Text,
    scripts: Listing<ScriptRuleConfig>,
) -> Result<Vec<PlacedScriptRule>, AllocError>
    ensures { IfOk result (λ it.
        it.items ≡ map (words.script_placed_at path.now profile.now) (enumerate_from 0 scripts)) }
{
    let mut rules = Vec::new(alloc);
    for (index, config) in Vec::from(scripts).into_iter().enumerate() {
        let id = ScriptRuleId {
            file: Text::from_str(alloc, path)?,
            profile: profile.clone()?,
            index,
        };
        rules.push(PlacedScriptRule { id, config })?;
    }
    Ok(rules)
}

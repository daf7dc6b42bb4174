//! What holds of scripts and script rules that are read, and of scripts by their names. Each law is
//! the contract of a function that does nothing.
ghost use Rattle.nextest_config_resolution_scripts.specs.Laws.{AcceptedNames, AcceptedScriptRule, AcceptedSetupScript, AcceptedWrapperScript, NamedIsFound, RefusedScriptRule};

use crate::rule_keys::ScriptRuleKeys;
use nextest_config_resolution_keys::laws::refused_for;

/// A table is read as a setup script exactly if it is that script by what stands under its keys, in
/// whatever order they are looked at.
pub fn accepted_setup_script()
    ensures { AcceptedSetupScript }
{}

/// A table is read as a wrapper script exactly if it is that script by what stands under its keys.
pub fn accepted_wrapper_script()
    ensures { AcceptedWrapperScript }
{}

/// A value is read as the names of setup scripts exactly if it names these.
pub fn accepted_names()
    ensures { AcceptedNames }
{}

/// A table is read as a script rule exactly if each of a script rule's keys reads it as its part.
pub fn accepted_script_rule()
    ensures { AcceptedScriptRule }
{}

/// The table of a script rule is refused for what its keys refuse it for.
pub fn refused_script_rule()
    ensures { RefusedScriptRule }
{
    refused_for::<ScriptRuleKeys>();
}

/// Scripts have one of a name exactly if one of them has that name.
pub fn named_is_found<Config>()
    ensures { NamedIsFound Config }
{}

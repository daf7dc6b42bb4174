// Where a rule of a configuration is written.
ghost use Rattle.std.specs.Prelude.{◌≡◌, IfOk};
ghost use Rattle.nextest_config_resolution_load.specs.RuleIds.{rule_of};

use nextest_config_resolution_overrides::OverrideId;
use nextest_config_resolution_scripts::ScriptRuleId;
use std::alloc::AllocError;
use std::fmt;

/// A rule of a configuration, by where it is written.
#[derive(Clone, Debug, PartialEq, Eq)]
pub enum RuleId {
    /// An override.
    Override(OverrideId),
    /// A script rule.
    Script(ScriptRuleId),
}

// One call drops it, whoever holds it.
impl Drop for RuleId {
    fn drop(self) {
        match self {
            RuleId::Override(_) => {}
            RuleId::Script(_) => {}
        }
    }
}

impl fmt::Display for RuleId {
    fn fmt<W: fmt::Write>(&self, f: &mut fmt::Formatter<W>) -> fmt::Result {
        match self {
            RuleId::Override(id) => write!(f, "{id}"),
            RuleId::Script(id) => write!(f, "{id}"),
        }
    }
}

// A rule, by where it is written, lent.
#[derive(Clone, Copy)]
pub(crate) enum RuleRef<'r> {
    Override(&'r OverrideId),
    Script(&'r ScriptRuleId),
}

impl<'r> RuleRef<'r> {
    // Once more, owned.
    pub(crate) fn owned(self) -> Result<RuleId, AllocError>
        ensures { IfOk result (λ it. it ≡ rule_of self.entry) }
    {
        match self {
            RuleRef::Override(id) => Ok(RuleId::Override(id.clone()?)),
            RuleRef::Script(id) => Ok(RuleId::Script(id.clone()?)),
        }
    }
}

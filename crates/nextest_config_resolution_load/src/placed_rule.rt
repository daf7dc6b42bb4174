// Rules of files, by their texts.
ghost use Rattle.std.specs.Prelude.{◌≡◌, Bool, option_copied};
ghost use Rattle.nextest_config_resolution_load.specs.RuleIds.{rule_of};
ghost use Rattle.nextest_config_resolution_load.specs.RuleTexts.{texts_of};
ghost use Rattle.nextest_config_resolution_load.specs.Rules.{Conditions};
ghost use Rattle.nextest_config_resolution_load.specs.Rules as words;
ghost use Rattle.nextest_config_resolution_load.specs.declared.rule_id.RuleId.{RuleId};

use crate::rule_id::RuleRef;
use nextest_config_resolution_keys::{DefaultFilterKey, get_value};
use nextest_config_resolution_overrides::{
    FilterKey, OverridePlatforms, PlacedOverride, PlatformKey,
};
use nextest_config_resolution_scripts::PlacedScriptRule;
use nextest_text::Text;

// The texts that say where a rule holds, and which tests are run by default, lent.
#[derive(Clone, Copy)]
pub(crate) struct RuleTexts<'r> {
    pub(crate) host: Option<&'r Text>,
    pub(crate) target: Option<&'r Text>,
    pub(crate) filter: Option<&'r Text>,
    pub(crate) default_filter: Option<&'r Text>,
}

// A rule of a file.
pub(crate) trait PlacedRule: Drop {
    // Its texts.
    ghost conditions: { Self → Conditions };

    // Where it is written.
    ghost rule_id: { Self → RuleId };

    // It has a `list-wrapper`.
    ghost wraps: { Self → Bool };

    fn texts(&self) -> RuleTexts<'_>
        ensures { texts_of result ≡ conditions self.now };

    fn id(&self) -> RuleRef<'_>
        ensures { rule_of result ≡ rule_id self.now };

    fn wraps_lists(&self) -> bool
        ensures { result ≡ wraps self.now };
}

impl PlacedRule for PlacedOverride {
    ghost use Rattle.std.specs.Prelude.{false};
    ghost use Rattle.nextest_config_resolution_load.specs.Rules.{conditions_of};
    ghost use Rattle.nextest_config_resolution_load.specs.declared.rule_id.RuleId.TheVariants.{Override};

    ghost conditions = { conditions_of };

    ghost rule_id = { λ rule. Override rule.id };

    ghost wraps = { λ rule. false };

    fn texts(&self) -> RuleTexts<'_> {
        RuleTexts {
            host: host_in(get_value::<PlatformKey, _>(&self.config)),
            target: target_in(get_value::<PlatformKey, _>(&self.config)),
            filter: get_value::<FilterKey, _>(&self.config),
            default_filter: get_value::<DefaultFilterKey, _>(&self.config),
        }
    }

    fn id(&self) -> RuleRef<'_> {
        RuleRef::Override(&self.id)
    }

    fn wraps_lists(&self) -> bool {
        false
    }
}

impl PlacedRule for PlacedScriptRule {
    ghost use Rattle.nextest_config_resolution_load.specs.Rules.{script_conditions_of, wraps_lists};
    ghost use Rattle.nextest_config_resolution_load.specs.declared.rule_id.RuleId.TheVariants.{Script};

    ghost conditions = { script_conditions_of };

    ghost rule_id = { λ rule. Script rule.id };

    ghost wraps = { wraps_lists };

    fn texts(&self) -> RuleTexts<'_> {
        RuleTexts {
            host: host_in(self.config.platform.as_ref()),
            target: target_in(self.config.platform.as_ref()),
            filter: self.config.filter.as_ref(),
            default_filter: None,
        }
    }

    fn id(&self) -> RuleRef<'_> {
        RuleRef::Script(&self.id)
    }

    fn wraps_lists(&self) -> bool {
        self.config.list_wrapper.is_some()
    }
}

// The spec of the platform on which tests are built and run.
fn host_in(platform: Option<&OverridePlatforms>) -> Option<&Text>
    ensures { option_copied result ≡ words.host_in (option_copied platform.entry) }
{
    match platform {
        Some(platforms) => platforms.host.as_ref(),
        None => None,
    }
}

// The spec of the platform for which they are built.
fn target_in(platform: Option<&OverridePlatforms>) -> Option<&Text>
    ensures { option_copied result ≡ words.target_in (option_copied platform.entry) }
{
    match platform {
        Some(platforms) => platforms.target.as_ref(),
        None => None,
    }
}

//! What holds of every setting. Each law is the contract of a function that does nothing.
ghost use Rattle.nextest_config_resolution_settings.specs.Laws.{OneSetting, SameSettings, SameSources, SomeSettings};
ghost use Rattle.nextest_config_resolution_settings.specs.RuleLaws.{LeastIsNearest, NearestIsLeast, NoneIsLeast, OneHeld, OneLeast, SomeHeld};

use crate::layers::{Rule, Sets};
use crate::source::TrackSource;
use nextest_config_resolution_keys::ConfigKey;

/// A setting has at most one value, and that comes from one place.
pub fn one_setting<K: ConfigKey, R: Sets<K> + Rule, P: Sets<K>>()
    ensures { OneSetting R.id R.value P.value }
{}

/// A test has settings, and the same ones whatever is kept of where they are taken from; and that
/// is the same, too.
pub fn same_settings<'p, S: TrackSource<'p>, T: TrackSource<'p>>()
    ensures some { SomeSettings S.tells }
    ensures settings { SameSettings S.tells T.tells }
    ensures sources { SameSources S.tells }
{}

/// Of the rules of a list some hold, and there is one list of these, in their order.
pub fn held_rules<R: Rule>()
    ensures some { SomeHeld R }
    ensures one { OneHeld R }
{}

/// The nearest of the rules that hold is the least rule that holds and sets a value, and none of
/// them sets one exactly if there is no such rule.
pub fn least_rule<K: ConfigKey, R: Sets<K> + Rule>()
    ensures nearest { NearestIsLeast R.value }
    ensures least { LeastIsNearest R.value }
    ensures none { NoneIsLeast R.value }
{}

/// There is at most one least rule, and one value that it sets.
pub fn one_least<K: ConfigKey, R: Sets<K> + Rule>()
    ensures { OneLeast R.value }
{}

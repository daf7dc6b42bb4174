// The values that profiles have, where no rule is asked.
ghost use Rattle.std.specs.Prelude.{unwrap_or};
ghost use Rattle.std.specs.Option.{option_copied};
ghost use Rattle.nextest_config_resolution_settings.specs.Nearest.{lent_layers};
ghost use Rattle.nextest_config_resolution_settings.specs.Profile.{MaySet, OfProfiles};

use crate::layers::{Sets, find_in_profiles, nearest};
use nextest_config_resolution_keys::{ConfigKey, HasFallback};

/// The value that profiles have of a setting, lent: that of the nearest that sets it. `None` where
/// none of them does, and then whatever the fallback is holds.
pub fn of_profiles<'c, K: ConfigKey, P: Sets<K>>(profiles: &[&'c P]) -> Option<&'c K::Value>
    ensures { (fallback : K.Value) → OfProfiles P.value (lent_layers profiles.now) fallback
        (unwrap_or (option_copied result) fallback) }
{
    find_in_profiles::<K, P>(profiles).0
}

/// The value that profiles have of a setting: that of the nearest that sets it, else the fallback
/// of its key.
pub fn value_or_fallback<'c, K: HasFallback, P: Sets<K>>(profiles: &[&'c P]) -> K::Value
where
    K::Value: Copy + 'c,
    ensures { OfProfiles P.value (lent_layers profiles.now) K.fallback result }
{
    match of_profiles::<K, P>(profiles) {
        Some(value) => *value,
        None => K::fallback(),
    }
}

/// The value that the nearest of some profiles sets for a setting, lent. `None` where none of them
/// sets it.
pub fn set_by<'c, K: ConfigKey, P: Sets<K>>(profiles: &[&'c P]) -> Option<&'c K::Value>
    ensures { MaySet P.value (lent_layers profiles.now) (option_copied result) }
{
    match nearest::<K, P>(profiles) {
        Some((_, value)) => Some(value),
        None => None,
    }
}

// The layers of a configuration, and what they set.
ghost use Rattle.std.specs.Prelude.{◌≡◌, IfNone, IfSome, unwrap_or};
ghost use Rattle.std.specs.Option.{option_copied};
ghost use Rattle.nextest_config_resolution_settings.specs.Nearest.{IsNearest, IsOfProfiles, IsSetting, SetsNone, an_override, lent_layers, setting_source_of};

use crate::source::SettingSource;
use nextest_config_resolution_keys::{ConfigKey, HasValues, ListedKey, ProfileConfig, get_value};
use nextest_config_resolution_overrides::{OverrideConfig, OverrideId, PlacedOverride};

/// A layer of a configuration, which may set the value of a key.
pub trait Sets<K: ConfigKey> {
    ghost use Rattle.std.specs.Prelude.{◌≡◌, Option};
    ghost use Rattle.std.specs.Option.{option_copied};

    ghost value: { Self → Option K.Value };

    /// The value that it sets, if it sets one.
    fn value(&self) -> Option<&K::Value>
        ensures { option_copied result ≡ value self.now };
}

// A profile sets what its table has for the key.
impl<K: ListedKey> Sets<K> for ProfileConfig
where
    ProfileConfig: HasValues<K::Values>,
{
    ghost value = { λ it. K.Values.value (⟦<ProfileConfig as HasValues<K::Values>>⟧.values it) };

    fn value(&self) -> Option<&K::Value> {
        get_value::<K, ProfileConfig>(self)
    }
}

// And so does an override.
impl<K: ListedKey> Sets<K> for PlacedOverride
where
    OverrideConfig: HasValues<K::Values>,
{
    ghost value = { λ it.
        K.Values.value (⟦<OverrideConfig as HasValues<K::Values>>⟧.values it.config) };

    fn value(&self) -> Option<&K::Value> {
        get_value::<K, OverrideConfig>(&self.config)
    }
}

/// The place of the nearest layer that sets the value of a key, and that value: of the first of a
/// list. `None` where no layer sets it.
pub fn nearest<'c, K: ConfigKey, L: Sets<K>>(layers: &[&'c L]) -> Option<(usize, &'c K::Value)>
    ensures found { IfSome result
        (λ found. IsNearest L.value (lent_layers layers.now) found.0 found.1.now) }
    ensures none { IfNone result (SetsNone L.value (lent_layers layers.now)) }
{
    for place in 0..layers.len() {
        if let Some(value) = layers[place].value() {
            return Some((place, value));
        }
    }
    None
}

/// A rule of a configuration, an override or a script rule, which stands in a profile.
pub trait InProfile {
    ghost use Rattle.std.specs.Prelude.{◌≡◌, List, ℕ};

    ghost profile_of: { Self → List ℕ };

    /// The name of the profile.
    fn profile(&self) -> &str
        ensures { result.now ≡ profile_of self.now };
}

/// A rule of a configuration, which is one of its overrides.
pub trait Rule {
    ghost use Rattle.std.specs.Prelude.{◌≡◌};
    ghost use Rattle.nextest_config_resolution_overrides.specs.declared.override_id.OverrideId.{OverrideId};

    ghost id: { Self → OverrideId };

    /// Which override it is.
    fn id(&self) -> &OverrideId
        ensures { result.now ≡ id self.now };
}

/// The value of a key over rules, then profiles, and where it comes from: that of the nearest
/// rule that sets it, else that of the nearest profile that does. `None` where no layer sets it,
/// and then whatever the fallback is holds.
pub fn find_setting<'c, K: ConfigKey, R: Sets<K> + Rule, P: Sets<K>>(
    rules: &[&'c R],
    profiles: &[&'c P],
) -> (Option<&'c K::Value>, SettingSource<'c>)
    ensures { (fallback : K.Value)
        → IsSetting R.id R.value P.value (lent_layers rules.now) (lent_layers profiles.now) fallback
        (unwrap_or (option_copied result.0) fallback) (setting_source_of result.1) }
{
    match nearest::<K, R>(rules) {
        Some((place, value)) => (Some(value), source_of(rules[place])),
        None => find_in_profiles::<K, P>(profiles),
    }
}

// That a value comes from a rule.
fn source_of<'c, R: Rule>(rule: &'c R) -> SettingSource<'c>
    ensures { setting_source_of result ≡ an_override (R.id rule.now) }
{
    SettingSource::Override(rule.id())
}

/// The value of a key over profiles, and where it comes from, where no rule sets it: that of
/// the nearest profile that does. `None` where none of them sets it, and then whatever the fallback
/// is holds.
pub fn find_in_profiles<'c, 'p, K: ConfigKey, P: Sets<K>>(
    profiles: &[&'c P],
) -> (Option<&'c K::Value>, SettingSource<'p>)
    ensures { (fallback : K.Value) → IsOfProfiles P.value (lent_layers profiles.now) fallback
        (unwrap_or (option_copied result.0) fallback) (setting_source_of result.1) }
{
    match nearest::<K, P>(profiles) {
        Some((place, value)) => (Some(value), SettingSource::Profile(place)),
        None => (None, SettingSource::Default),
    }
}

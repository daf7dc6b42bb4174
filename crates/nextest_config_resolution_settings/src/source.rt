// Where the value of a setting comes from.
use nextest_config_resolution_overrides::OverrideId;
use nextest_config_resolution_scripts::ScriptRuleId;

/// Where the value of a setting comes from.
#[derive(Clone, Copy, Debug, PartialEq, Eq)]
pub enum SettingSource<'p> {
    /// An override that holds for the test.
    Override(&'p OverrideId),
    /// A script rule that holds for the test.
    Script(&'p ScriptRuleId),
    /// A profile of the chain, by its place there: 0 is the profile that was asked.
    Profile(usize),
    /// No layer sets it, and the fallback holds.
    Default,
}

/// What is kept of where a setting comes from: nothing (`()`), or all of it (`SettingSource`).
pub trait TrackSource<'p>: Copy {
    ghost use Rattle.nextest_config_resolution_settings.specs.Nearest.{Source, setting_source_of};
    ghost use Rattle.nextest_config_resolution_settings.specs.Tracking.{KeepsSome};

    // What is kept where a setting comes from there.
    ghost tells: { Self → Source → Type 0 };

    // Something is kept of each source.
    ghost keeps: { KeepsSome tells };

    /// What is kept of where a setting comes from.
    fn track(source: SettingSource<'p>) -> Self
        ensures { tells result (setting_source_of source.entry) };
}

impl<'p> TrackSource<'p> for () {
    ghost use Rattle.nextest_config_resolution_settings.specs.Tracking.{TellsNothing, nothing_kept};

    ghost tells = { TellsNothing };

    ghost keeps = { nothing_kept };

    fn track(_source: SettingSource<'p>) {}
}

impl<'p> TrackSource<'p> for SettingSource<'p> {
    ghost use Rattle.nextest_config_resolution_settings.specs.Tracking.{TellsAll, all_kept};

    ghost tells = { TellsAll };

    ghost keeps = { all_kept };

    fn track(source: SettingSource<'p>) -> SettingSource<'p> {
        source
    }
}

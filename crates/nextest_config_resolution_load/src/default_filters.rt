// The default filters of profiles.
ghost use Rattle.std.specs.Prelude.{map};
ghost use Rattle.nextest_config_resolution_keys.specs.File.{default_filter_in};
ghost use Rattle.nextest_config_resolution_load.specs.Checks.{default_check, default_checks};
ghost use Rattle.nextest_config_resolution_load.specs.Load.{IsReadAs, named_of};
ghost use Rattle.nextest_config_resolution_load.specs.Reading.{AreReadDefaults};
ghost use Rattle.nextest_config_resolution_load.specs.Refusing.{Passes};
ghost use Rattle.nextest_config_resolution_load.specs.declared.languages.FilterPurpose.TheVariants as purpose;

use crate::languages::{FilterPurpose, Languages};
use crate::load_error::LoadError;
use crate::loaded_config::NamedProfile;
use crate::refusing::bad_filter;
use nextest_config_resolution_keys::{DefaultFilterKey, get_value};
use nextest_text::Listing;
use std::alloc::Global;

// The default filter of each of some profiles, where it sets one, in their order.
pub(crate) fn read_defaults<R: Languages>(
    alloc: Global,
    cx: &R::Cx,
    profiles: &[NamedProfile],
) -> Result<Listing<Option<R::Filter>>, LoadError>
    ensures { Passes (R.is_filter cx.now) R.is_spec R.is_too_deep
        (default_checks (map named_of profiles.now))
        (AreReadDefaults (R.is_filter cx.now) (map named_of profiles.now)) result }
{
    let mut found = Listing::new(alloc);
    for profile in profiles {
        let filter = default_of::<R>(alloc, cx, profile)?;
        found.push(filter)?;
    }
    Ok(found)
}

// The default filter of a profile, if it sets one.
fn default_of<R: Languages>(
    alloc: Global,
    cx: &R::Cx,
    profile: &NamedProfile,
) -> Result<Option<R::Filter>, LoadError>
    ensures { let text = default_filter_in profile.now.config in Passes (R.is_filter cx.now)
        R.is_spec R.is_too_deep (default_check profile.now.name text)
        (IsReadAs (R.is_filter cx.now purpose.Default) text) result }
{
    match get_value::<DefaultFilterKey, _>(&profile.config) {
        None => Ok(None),
        Some(text) => match R::read_filter(alloc, cx, FilterPurpose::Default, text)? {
            Some(filter) => Ok(Some(filter)),
            None => Err(bad_filter(alloc, profile.name.as_str(), text.as_str())),
        },
    }
}

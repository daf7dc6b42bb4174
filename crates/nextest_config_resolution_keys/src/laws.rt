//! What holds of the keys. Each law is the contract of a function that does nothing.
ghost use Rattle.std.specs.Prelude.{◌≡◌, ◌↔◌, Ok};
ghost use Rattle.toml.specs.Data.{Members};
ghost use Rattle.nextest_config_resolution_keys.specs.Keys.{value_of};
ghost use Rattle.nextest_config_resolution_keys.specs.Profile.{IsProfile, profile_in, profile_rows};
ghost use Rattle.nextest_config_resolution_keys.specs.declared.profile_config.ProfileConfig.{ProfileConfig};
ghost use Rattle.nextest_config_resolution_keys.specs.Rows.{refusal, refusal_of};

use crate::has_key::{HasValues, ListedKey};
use crate::key_list::KeyList;
use crate::profile_config::ProfileKeys;

/// A table is refused for what the keys of a list refuse it for.
pub fn refused_for<S: KeyList>()
    ensures { (given : Members) → refusal_of (S.reading given) ≡ refusal S.rows given }
{}

/// A value that was read of a table is what stands there at the path of its key.
pub fn reads_each<K: ListedKey, C: HasValues<K::Values>>()
    ensures { (given : Members) (it : C) → C.reading given ≡ Ok it
        → value_of K.key given ≡ Ok (K.Values.value (C.values it)) }
{}

/// A table is read as a profile exactly if each of a profile's keys reads it as its value.
pub fn accepted_profile()
    ensures { (given : Members) (it : ProfileConfig)
        → (profile_in given ≡ Ok it) ↔ IsProfile given it }
{}

/// The table of a profile is refused for what its keys refuse it for.
pub fn refused_profile()
    ensures { (given : Members)
        → refusal_of (profile_in given) ≡ refusal profile_rows given }
{
    refused_for::<ProfileKeys>();
}

// The names of profiles that are kept for the runner's own.
ghost use Rattle.std.specs.Prelude.{◌≡◌, ◌++◌, [], ◌∷◌, IfOk, filter};
ghost use Rattle.toml.specs.View.{table_view, view};
ghost use Rattle.nextest_config_resolution_warnings.specs.Reserved as reserved;

use nextest_config_elements_toml::member;
use nextest_text::{Listing, Text};
use std::alloc::{AllocError, Global};
use toml::{Table, Value};

/// The names of the profiles of `file`, a configuration, that begin with `default-` as those of the
/// runner's own do, and are none of them: all but `default-miri`, by their bytes. A file whose
/// `profile` is left out or no table has none. It fails only on allocation.
pub fn unknown_reserved_profiles(alloc: Global, file: &Table) -> Result<Listing<Text>, AllocError>
    ensures { IfOk result (λ names. names ≡ reserved.unknown_reserved (table_view file.now)) }
{
    match member(file, "profile") {
        Some(profiles) => unknown_reserved_at(alloc, profiles),
        None => Ok(Listing::new(alloc)),
    }
}

// The names of this kind that what stands at the profiles has.
fn unknown_reserved_at(alloc: Global, profiles: &Value) -> Result<Listing<Text>, AllocError>
    ensures { IfOk result (λ names. names
        ≡ filter reserved.is_unknown_reserved (reserved.names_in (view profiles.now))) }
{
    match profiles {
        Value::Table(profiles) => unknown_reserved_in(alloc, profiles),
        _ => Ok(Listing::new(alloc)),
    }
}

// The names of this kind that profiles have.
fn unknown_reserved_in(alloc: Global, profiles: &Table) -> Result<Listing<Text>, AllocError>
    ensures { IfOk result (λ names. names
        ≡ filter reserved.is_unknown_reserved (reserved.names (table_view profiles.now))) }
{
    let mut found = Listing::new(alloc);
    for name in profiles.keys() {
        push_unknown_reserved(alloc, &mut found, name.as_str())?;
    }
    Ok(found)
}

// Adds a name, if it is of this kind.
fn push_unknown_reserved(
    alloc: Global,
    found: &mut Listing<Text>,
    name: &str,
) -> Result<(), AllocError>
    ensures { IfOk result
        (λ _. found.new ≡ found.old ++ filter reserved.is_unknown_reserved (name.now ∷ [])) }
{
    if is_unknown_reserved(name) {
        found.push(Text::from_str(alloc, name)?)?;
    }
    Ok(())
}

// Whether a name is of this kind.
fn is_unknown_reserved(name: &str) -> bool
    ensures { result ≡ reserved.is_unknown_reserved name.now }
{
    name.starts_with("default-") && name != "default-miri"
}

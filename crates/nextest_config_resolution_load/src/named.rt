// What has a name.
ghost use Rattle.std.specs.Prelude.{◌≡◌, ℕ, List, IfOk};
ghost use Rattle.std.specs.List.{list_any};
ghost use Rattle.std.specs.Str.{bytes_eq};
ghost use Rattle.nextest_config_resolution_load.specs.Reading.{has_name};

use nextest_config_elements_identifiers::ConfigIdentifier;
use nextest_config_resolution_overrides::NamedGroup;
use nextest_config_resolution_scripts::NamedScript;
use std::alloc::{AllocError, Global};
use std::collections::BTreeSet;

// What has a name that is an identifier.
pub(crate) trait Named {
    // The name.
    ghost name_of: { Self → List ℕ };

    fn name(&self) -> &ConfigIdentifier
        ensures { result.now ≡ name_of self.now };
}

impl Named for NamedGroup {
    ghost name_of = { λ it. it.name };

    fn name(&self) -> &ConfigIdentifier {
        self.name.as_identifier()
    }
}

impl<T> Named for NamedScript<T> {
    ghost name_of = { λ it. it.id };

    fn name(&self) -> &ConfigIdentifier {
        self.id.as_identifier()
    }
}

// The names of some.
pub(crate) fn names_of<T: Named>(alloc: Global, all: &[T]) -> Result<BTreeSet<&str>, AllocError>
    ensures { IfOk result (λ names. (name : List ℕ)
        → has_name names name ≡ list_any (λ it. bytes_eq name (T.name_of it)) all.now) }
{
    let mut names = BTreeSet::new(alloc);
    for it in all {
        names.insert(it.name().as_str())?;
    }
    Ok(names)
}

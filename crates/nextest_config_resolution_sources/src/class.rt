// Where sources come from.
ghost use Rattle.std.specs.Prelude.{◌≡◌};
ghost use Rattle.nextest_config_resolution_sources.specs.Counting.{class_of, is_of, same_class};

use crate::source::ConfigSource;
use nextest_config_elements_identifiers::ConfigSourceKind;

// Where a source comes from, its name aside.
#[derive(Clone, Copy)]
pub(crate) enum Class {
    Tool,
    Explicit,
    Discovered,
}

// Where a source comes from.
fn class_of(kind: &ConfigSourceKind) -> Class
    ensures { result ≡ class_of kind.now }
{
    match kind {
        ConfigSourceKind::Tool(_) => Class::Tool,
        ConfigSourceKind::ExplicitRepository => Class::Explicit,
        ConfigSourceKind::DiscoveredRepository => Class::Discovered,
    }
}

// Whether two are the same.
fn same_class(one: Class, other: Class) -> bool
    ensures { result ≡ same_class one other }
{
    match (one, other) {
        (Class::Tool, Class::Tool)
        | (Class::Explicit, Class::Explicit)
        | (Class::Discovered, Class::Discovered) => true,
        _ => false,
    }
}

// Whether a source is of a class.
pub(crate) fn is_of(wanted: Class, source: &ConfigSource) -> bool
    ensures { result ≡ is_of wanted source.now }
{
    same_class(wanted, class_of(&source.kind))
}

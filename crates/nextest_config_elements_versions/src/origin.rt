// The sources that ask for versions and features.
ghost use Rattle.std.specs.Prelude.{◌≡◌, IfOk};
ghost use Rattle.nextest_config_elements_versions.specs.Sources.{origin_of, version_source_of};

use nextest_config_elements_identifiers::ConfigSourceKind;
use nextest_text::Text;
use std::alloc::{AllocError, Global};

/// A source, by where it comes from and its path.
#[derive(Clone, Debug, PartialEq, Eq)]
pub struct VersionOrigin {
    /// Where it comes from.
    pub kind: ConfigSourceKind,
    /// Its path.
    pub path: Text,
}

// One call drops it, whoever holds it.
impl Drop for VersionOrigin {
    fn drop(self) {
        let Self { kind: _, path: _ } = self;
    }
}

/// A source with its text.
#[derive(Clone, Copy, Debug)]
pub struct VersionSource<'a> {
    /// Where it comes from.
    pub kind: &'a ConfigSourceKind,
    /// Its path.
    pub path: &'a str,
    /// Its text; `None` where it wasn't read, and then it asks for nothing.
    pub text: Option<&'a str>,
}

impl VersionOrigin {
    // A source without its text.
    pub(crate) fn of_source(
        alloc: Global,
        source: &VersionSource,
    ) -> Result<VersionOrigin, AllocError>
        ensures { IfOk result (λ it. it ≡ origin_of (version_source_of source.now)) }
    {
        Ok(VersionOrigin {
            kind: source.kind.clone()?,
            path: Text::from_str(alloc, source.path)?,
        })
    }
}

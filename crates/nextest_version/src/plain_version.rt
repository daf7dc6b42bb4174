// A version, plain in contracts.
ghost use Rattle.std.specs.Prelude.{◌≡◌};
ghost use Rattle.std.specs.Cmp.{partial_equiv_from_equiv};
ghost use Rattle.semver.specs.Identifiers.{parts_of};
ghost use Rattle.nextest_version.specs.Order.{precedence};
ghost use Rattle.nextest_version.specs.Reading.{Parses};
ghost use Rattle.nextest_version.specs.Same.{is_same, is_same_equiv};

use semver::Version;
use std::alloc::{AllocError, Global};
use std::cmp::Ordering;
use std::fmt;
use std::marker::Model;

/// A version. In a clause it is its parts: three numbers, the text of the pre-release and that of the build. Two are equal
/// where all parts are, that of the build too.
pub struct PlainVersion {
    version: Version,
}

// One call drops it, whoever holds it.
impl Drop for PlainVersion {
    fn drop(self) {
        let Self { version: _ } = self;
    }
}

impl Model for PlainVersion {
    ghost use Rattle.semver.specs.Parse.{Parts};
    ghost use Rattle.semver.specs.Identifiers.{parts_of};

    ghost Value = { Parts };

    ghost view = { λ it. parts_of it.version };
}

/// A text is no version, or there was no memory to read it.
#[derive(Clone, Copy, Debug, PartialEq, Eq)]
pub enum VersionError {
    /// It is none.
    NoVersion,
    /// There was no memory, which says nothing of the text.
    OutOfMemory,
}

impl PlainVersion {
    /// The version that `text` is by SemVer 2.0.
    pub fn parse(alloc: Global, text: &str) -> Result<PlainVersion, VersionError>
        ensures exact { Parses text.now result }
    {
        match Version::parse(alloc, text) {
            Ok(version) => Ok(PlainVersion { version }),
            Err(error) if error == semver::Error::from(AllocError) => {
                Err(VersionError::OutOfMemory)
            }
            Err(_) => Err(VersionError::NoVersion),
        }
    }

    /// The version, lent.
    pub fn version(&self) -> &Version
        ensures { parts_of result.now ≡ self.now }
    {
        &self.version
    }

    /// How it stands to another by precedence, builds left aside.
    pub fn cmp_precedence(&self, other: &PlainVersion) -> Ordering
        ensures { result ≡ precedence self.now other.now }
    {
        self.version.cmp_precedence(&other.version)
    }
}

impl From<Version> for PlainVersion {
    ghost from_gives = { λ version plain. plain ≡ parts_of version };

    fn from(version: Version) -> PlainVersion {
        PlainVersion { version }
    }
}

impl Clone for PlainVersion {
    ghost is_clone = { λ original copy. copy ≡ original };

    fn clone(&self) -> Result<PlainVersion, AllocError> {
        Ok(PlainVersion {
            version: self.version.clone()?,
        })
    }
}

impl PartialEq for PlainVersion {
    ghost eq = { is_same };

    ghost laws = { partial_equiv_from_equiv is_same_equiv };

    fn eq(&self, other: &PlainVersion) -> bool {
        self.version == other.version
    }
}

impl Eq for PlainVersion {
    ghost laws = { is_same_equiv };
}

impl fmt::Display for PlainVersion {
    ghost use Rattle.std.specs.Prelude.{Some};
    ghost use Rattle.semver.specs.Identifiers.{parts_text};

    ghost output = { λ it. Some (parts_text it) };

    fn fmt<W: fmt::Write>(&self, f: &mut fmt::Formatter<W>) -> fmt::Result {
        fmt::Display::fmt(&self.version, f)
    }
}

impl fmt::Debug for PlainVersion {
    fn fmt<W: fmt::Write>(&self, f: &mut fmt::Formatter<W>) -> fmt::Result {
        fmt::Debug::fmt(&self.version, f)
    }
}

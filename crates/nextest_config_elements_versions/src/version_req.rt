// The version of a role that counts.
ghost use Rattle.std.specs.Prelude.{◌≡◌, IfOk, option_map, if◌then◌else◌};
ghost use Rattle.nextest_config_elements_versions.specs.Verdict.{asked_by, req_version_of, later_of};

use crate::origin::VersionOrigin;
use nextest_version::PlainVersion;
use std::alloc::AllocError;
use std::cmp::Ordering;

/// The version of a role that counts.
#[derive(Clone, Debug, PartialEq, Eq)]
pub enum NextestVersionReq {
    /// This one.
    Version {
        /// The version.
        version: PlainVersion,
        /// The source that asks for it.
        source: VersionOrigin,
    },
    /// None is asked for.
    None,
}

// One call drops it, whoever holds it.
impl Drop for NextestVersionReq {
    fn drop(self) {
        match self {
            NextestVersionReq::Version {
                version: _,
                source: _,
            } => {}
            NextestVersionReq::None => {}
        }
    }
}

impl NextestVersionReq {
    /// The version.
    pub fn version(&self) -> Option<&PlainVersion>
        ensures { option_map (λ it. it.now) result ≡ req_version_of self.now }
    {
        match self {
            NextestVersionReq::Version { version, source: _ } => Some(version),
            NextestVersionReq::None => None,
        }
    }

    // What one source asks for.
    pub(crate) fn of_source(
        asked: Option<PlainVersion>,
        source: &VersionOrigin,
    ) -> Result<NextestVersionReq, AllocError>
        ensures { IfOk result (λ it. it ≡ asked_by asked source.now) }
    {
        match asked {
            Some(version) => Ok(NextestVersionReq::Version {
                version,
                source: source.clone()?,
            }),
            None => Ok(NextestVersionReq::None),
        }
    }

    // Puts what counts of another part of a list behind it.
    pub(crate) fn merge(&mut self, other: NextestVersionReq)
        ensures { self.new ≡ later_of self.old other }
    {
        if stays(self, &other) {
            return;
        }
        *self = other;
    }
}

// Whether what counts of a part counts with another one behind it.
fn stays(one: &NextestVersionReq, other: &NextestVersionReq) -> bool
    ensures { later_of one.now other.now ≡ (if result then one.now else other.now) }
{
    match (one.version(), other.version()) {
        (_, None) => true,
        (None, Some(_)) => false,
        (Some(former), Some(version)) => former.cmp_precedence(version) == Ordering::Greater,
    }
}

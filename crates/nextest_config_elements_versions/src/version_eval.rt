// What a version is by those that count.
ghost use Rattle.std.specs.Prelude.{◌≡◌};
ghost use Rattle.semver.specs.Identifiers.{parts_of};
ghost use Rattle.nextest_version.specs.Order.{is_above};
ghost use Rattle.nextest_config_elements_versions.specs.Eval.{Tells};
ghost use Rattle.nextest_config_elements_versions.specs.Verdict.{error, verdict, warn, recommended_verdict};

use crate::origin::VersionOrigin;
use crate::version_config::NextestVersionConfig;
use crate::version_req::NextestVersionReq;
use nextest_version::PlainVersion;
use semver::Version;
use std::cmp::Ordering;

/// What the current version is by those that count.
#[derive(Clone, Copy, Debug)]
pub enum NextestVersionEval<'a> {
    /// It is enough.
    Satisfied,
    /// It is below the required one.
    Error {
        /// The required version.
        required: &'a PlainVersion,
        /// The current version.
        current: &'a Version,
        /// The source that asks for it.
        source: &'a VersionOrigin,
    },
    /// It is below the recommended one.
    Warn {
        /// The recommended version.
        recommended: &'a PlainVersion,
        /// The current version.
        current: &'a Version,
        /// The source that asks for it.
        source: &'a VersionOrigin,
    },
    /// It is below the required one, which is let pass.
    ErrorOverride {
        /// The required version.
        required: &'a PlainVersion,
        /// The current version.
        current: &'a Version,
        /// The source that asks for it.
        source: &'a VersionOrigin,
    },
    /// It is below the recommended one, which is let pass.
    WarnOverride {
        /// The recommended version.
        recommended: &'a PlainVersion,
        /// The current version.
        current: &'a Version,
        /// The source that asks for it.
        source: &'a VersionOrigin,
    },
}

impl NextestVersionConfig {
    /// What `current` is by these versions: the required one is judged first. With
    /// `override_version_check` what is below one is let pass, and told as such.
    pub fn eval<'a>(
        &'a self,
        current: &'a Version,
        override_version_check: bool,
    ) -> NextestVersionEval<'a>
        ensures { Tells override_version_check current.now result
            (verdict self.now (parts_of current.now)) }
    {
        if let NextestVersionReq::Version { version, source } = &self.required {
            if is_above(version, current) {
                return below_required(version, current, source, override_version_check);
            }
        }
        warned(&self.recommended, current, override_version_check)
    }
}

// What is below a required version.
fn below_required<'a>(
    required: &'a PlainVersion,
    current: &'a Version,
    source: &'a VersionOrigin,
    is_overridden: bool,
) -> NextestVersionEval<'a>
    ensures { Tells is_overridden current.now result (error required.now source.now) }
{
    if is_overridden {
        NextestVersionEval::ErrorOverride {
            required,
            current,
            source,
        }
    } else {
        NextestVersionEval::Error {
            required,
            current,
            source,
        }
    }
}

// What is below a recommended version.
fn below_recommended<'a>(
    recommended: &'a PlainVersion,
    current: &'a Version,
    source: &'a VersionOrigin,
    is_overridden: bool,
) -> NextestVersionEval<'a>
    ensures { Tells is_overridden current.now result (warn recommended.now source.now) }
{
    if is_overridden {
        NextestVersionEval::WarnOverride {
            recommended,
            current,
            source,
        }
    } else {
        NextestVersionEval::Warn {
            recommended,
            current,
            source,
        }
    }
}

// What a version is by the recommended one.
fn warned<'a>(
    recommended: &'a NextestVersionReq,
    current: &'a Version,
    is_overridden: bool,
) -> NextestVersionEval<'a>
    ensures { Tells is_overridden current.now result
        (recommended_verdict recommended.now (parts_of current.now)) }
{
    match recommended {
        NextestVersionReq::Version { version, source } if is_above(version, current) => {
            below_recommended(version, current, source, is_overridden)
        }
        _ => NextestVersionEval::Satisfied,
    }
}

// Whether a version is above the current one.
fn is_above(version: &PlainVersion, current: &Version) -> bool
    ensures { result ≡ is_above version.now (parts_of current.now) }
{
    version.version().cmp_precedence(current) == Ordering::Greater
}

// The versions that count of a list of sources.
ghost use Rattle.std.specs.Prelude.{◌≡◌, IfOk, OnOk, OnErr};
ghost use Rattle.nextest_config_elements_versions.specs.Verdict.{asked_in, merged_versions, none_asked};

use crate::asked_versions::AskedVersions;
use crate::origin::VersionOrigin;
use crate::version_req::NextestVersionReq;
use std::alloc::AllocError;

/// The versions that count of a list of sources.
#[derive(Clone, Debug, PartialEq, Eq, Drop)]
pub struct NextestVersionConfig {
    /// The required one.
    pub required: NextestVersionReq,
    /// The recommended one.
    pub recommended: NextestVersionReq,
}

impl NextestVersionConfig {
    // What no sources ask for.
    pub(crate) fn none() -> NextestVersionConfig
        ensures { result ≡ none_asked }
    {
        NextestVersionConfig {
            required: NextestVersionReq::None,
            recommended: NextestVersionReq::None,
        }
    }

    // What one source asks for.
    pub(crate) fn of_source(
        asked: AskedVersions,
        source: &VersionOrigin,
    ) -> Result<NextestVersionConfig, AllocError>
        ensures { IfOk result (λ it. it ≡ asked_in asked source.now) }
    {
        let AskedVersions {
            required,
            recommended,
        } = asked;
        Ok(NextestVersionConfig {
            required: NextestVersionReq::of_source(required, source)?,
            recommended: NextestVersionReq::of_source(recommended, source)?,
        })
    }

    /// Puts one more source behind the others. An `Err` says that there is no memory, and leaves it
    /// as it was.
    pub fn accumulate(
        &mut self,
        asked: AskedVersions,
        source: &VersionOrigin,
    ) -> Result<(), AllocError>
        ensures merged { OnOk result
            (self.new ≡ merged_versions self.old (asked_in asked source.now)) }
        ensures err { OnErr result (self.new ≡ self.old) }
    {
        let more = NextestVersionConfig::of_source(asked, source)?;
        self.merge(more);
        Ok(())
    }

    /// Puts what counts of another part of a list behind it.
    pub fn merge(&mut self, other: NextestVersionConfig)
        ensures { self.new ≡ merged_versions self.old other }
    {
        let NextestVersionConfig {
            required,
            recommended,
        } = other;
        self.required.merge(required);
        self.recommended.merge(recommended);
    }
}

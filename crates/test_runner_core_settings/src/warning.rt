// The texts of warnings.
ghost use Rattle.std.specs.Prelude.{◌≡◌, [], ◌∷◌, IfOk};
ghost use Rattle.semver.specs.Identifiers.{parts_of};
ghost use Rattle.test_runner_core_settings.specs.Evaluation.{version_warnings};
ghost use Rattle.test_runner_core_settings.specs.Warnings.{version_text};

use nextest_config_elements_versions::{NextestVersionEval, VersionOrigin};
use nextest_config_resolution_warnings::Shown;
use nextest_text::{Listing, Text};
use nextest_version::PlainVersion;
use semver::Version;
use std::alloc::{AllocError, Global};

const OVERRIDDEN: &str = " (overridden)";

// What is told of an evaluation.
pub(crate) fn version_warnings(
    alloc: Global,
    eval: &NextestVersionEval<'_>,
) -> Result<Listing<Text>, AllocError>
    ensures { IfOk result (λ told. told ≡ version_warnings eval.now) }
{
    match eval {
        NextestVersionEval::Satisfied | NextestVersionEval::Error { .. } => Ok(Listing::new(alloc)),
        NextestVersionEval::Warn {
            recommended,
            current,
            source,
        } => warning(alloc, "recommended", recommended, current, source, ""),
        NextestVersionEval::ErrorOverride {
            required,
            current,
            source,
        } => warning(alloc, "required", required, current, source, OVERRIDDEN),
        NextestVersionEval::WarnOverride {
            recommended,
            current,
            source,
        } => warning(
            alloc,
            "recommended",
            recommended,
            current,
            source,
            OVERRIDDEN,
        ),
    }
}

// That the current version is below one that a source asks for.
fn warning(
    alloc: Global,
    role: &str,
    asked: &PlainVersion,
    current: &Version,
    source: &VersionOrigin,
    end: &str,
) -> Result<Listing<Text>, AllocError>
    ensures { IfOk result (λ told. told
        ≡ version_text role.now asked.now (parts_of current.now) source.now.path end.now ∷ []) }
{
    let path = Shown(source.path.as_str());
    let text = format!(in alloc; "version {role} {asked} current {current} by {path}{end}")?;
    let mut told = Listing::new(alloc);
    told.push(Text::from(text))?;
    Ok(told)
}

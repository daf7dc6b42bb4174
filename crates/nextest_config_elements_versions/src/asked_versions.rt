// How the versions are read that a source asks for.
ghost use Rattle.std.specs.Prelude.{◌≡◌, IfOk, codes};
ghost use Rattle.toml.specs.View.{view, table_view};
ghost use Rattle.nextest_config_elements_toml.specs.Paths.{Gives};
ghost use Rattle.nextest_config_elements_toml.specs.Reading.{optional};
ghost use Rattle.nextest_config_elements_versions.specs.Demand.{asked_version, both, version, versions};
ghost use Rattle.nextest_version.specs.Reading.{version_of};

use nextest_config_elements_toml::{ValueError, member, refused, refused_below};
use nextest_version::{PlainVersion, VersionError};
use std::alloc::{AllocError, Global};
use toml::{Table, Value};

/// The versions that a source asks for.
#[derive(Debug, PartialEq, Eq, Drop)]
pub struct AskedVersions {
    /// The required one.
    pub required: Option<PlainVersion>,
    /// The recommended one.
    pub recommended: Option<PlainVersion>,
}

impl Clone for AskedVersions {
    ghost is_clone = { λ original copy. copy ≡ original };

    fn clone(&self) -> Result<AskedVersions, AllocError> {
        Ok(AskedVersions {
            required: self.required.clone()?,
            recommended: self.recommended.clone()?,
        })
    }
}

const EXPECTED: &'static str = "a version as `X.Y.Z` or `X.Y`";

/// The versions that `value`, at `path`, asks for: a text is the required one, a table may have
/// `required` and `recommended`. Another value, and a text that is no version, are refused with
/// their path.
pub fn deserialize_nextest_version(
    alloc: Global,
    value: &Value,
    path: &[&str],
) -> Result<AskedVersions, ValueError>
    ensures { Gives path.now result (versions (view value.now)) }
{
    match value {
        Value::String(text) => match asked_version(alloc, text.as_str())? {
            Some(version) => Ok(AskedVersions {
                required: Some(version),
                recommended: None,
            }),
            None => Err(refused(alloc, path, Some(value), EXPECTED)),
        },
        Value::Table(table) => both(alloc, table, path),
        _ => Err(refused(
            alloc,
            path,
            Some(value),
            "a version as `X.Y.Z` or `X.Y`, or a table of these",
        )),
    }
}

// What a table asks for.
fn both(alloc: Global, table: &Table, path: &[&str]) -> Result<AskedVersions, ValueError>
    ensures { Gives path.now result (both (table_view table.now)) }
{
    let recommended = optional_version(alloc, table, "recommended", path)?;
    let required = optional_version(alloc, table, "required", path)?;
    Ok(AskedVersions {
        required,
        recommended,
    })
}

// The version of a key that may be left out.
fn optional_version(
    alloc: Global,
    table: &Table,
    key: &str,
    path: &[&str],
) -> Result<Option<PlainVersion>, ValueError>
    ensures { Gives path.now result (optional key.now version (table_view table.now)) }
{
    let Some(given) = member(table, key) else {
        return Ok(None);
    };
    match version_in(alloc, given)? {
        Some(version) => Ok(Some(version)),
        None => Err(refused_below(alloc, path, key, Some(given), EXPECTED)),
    }
}

// The version that a value is.
fn version_in(alloc: Global, given: &Value) -> Result<Option<PlainVersion>, AllocError>
    ensures { IfOk result (λ found. found ≡ version (view given.now)) }
{
    match given {
        Value::String(text) => asked_version(alloc, text.as_str()),
        _ => Ok(None),
    }
}

// The version that a text asks for.
fn asked_version(alloc: Global, text: &str) -> Result<Option<PlainVersion>, AllocError>
    ensures { IfOk result (λ found. found ≡ asked_version text.now) }
{
    if let Some(version) = version_of(alloc, text)? {
        return Ok(Some(version));
    }
    let longer = format!(in alloc; "{text}.0")?;
    version_of(alloc, longer.as_str())
}

// The version that a text is.
fn version_of(alloc: Global, text: &str) -> Result<Option<PlainVersion>, AllocError>
    ensures { IfOk result (λ found. found ≡ version_of text.now) }
{
    match PlainVersion::parse(alloc, text) {
        Ok(version) => Ok(Some(version)),
        Err(VersionError::NoVersion) => Ok(None),
        Err(VersionError::OutOfMemory) => Err(AllocError),
    }
}

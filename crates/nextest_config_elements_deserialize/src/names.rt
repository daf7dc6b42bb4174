// The names of a configuration.
ghost use Rattle.toml.specs.View.{view};
ghost use Rattle.nextest_config_elements_toml.specs.Paths.{Gives};
ghost use Rattle.nextest_config_elements_deserialize.specs.Names as read;

use nextest_config_elements_identifiers::{
    ConfigIdentifier, CustomTestGroup, InvalidIdentifier, TestGroup, ToolName,
};
use nextest_config_elements_toml::{ValueError, refused};
use std::alloc::Global;
use toml::Value;

/// The name of a tool: a text that is a plain identifier in its NFC. An `Err` for everything else.
pub fn deserialize_tool_name(
    alloc: Global,
    value: &Value,
    path: &[&str],
) -> Result<ToolName, ValueError>
    ensures { Gives path.now result (read.tool_name_in (view value.now)) }
{
    let expected = "the name of a tool, a plain identifier";
    let Some(text) = value.as_str() else {
        return Err(refused(alloc, path, Some(value), expected));
    };
    match ToolName::new(alloc, text) {
        Ok(name) => Ok(name),
        Err(InvalidIdentifier::OutOfMemory) => Err(ValueError::OutOfMemory),
        Err(_) => Err(refused(alloc, path, Some(value), expected)),
    }
}

/// An identifier: a text that is one in its NFC, plain or a tool's. An `Err` for everything else.
pub fn deserialize_config_identifier(
    alloc: Global,
    value: &Value,
    path: &[&str],
) -> Result<ConfigIdentifier, ValueError>
    ensures { Gives path.now result (read.config_identifier_in (view value.now)) }
{
    let expected = "an identifier, plain or `@tool:TOOL:NAME`";
    let Some(text) = value.as_str() else {
        return Err(refused(alloc, path, Some(value), expected));
    };
    match ConfigIdentifier::new(alloc, text) {
        Ok(name) => Ok(name),
        Err(InvalidIdentifier::OutOfMemory) => Err(ValueError::OutOfMemory),
        Err(_) => Err(refused(alloc, path, Some(value), expected)),
    }
}

/// A group of tests: the text `@global` or an identifier. An `Err` for everything else.
pub fn deserialize_test_group(
    alloc: Global,
    value: &Value,
    path: &[&str],
) -> Result<TestGroup, ValueError>
    ensures { Gives path.now result (read.test_group_in (view value.now)) }
{
    let expected = "`@global` or an identifier, plain or `@tool:TOOL:NAME`";
    let Some(text) = value.as_str() else {
        return Err(refused(alloc, path, Some(value), expected));
    };
    match TestGroup::from_text(alloc, text) {
        Ok(group) => Ok(group),
        Err(InvalidIdentifier::OutOfMemory) => Err(ValueError::OutOfMemory),
        Err(_) => Err(refused(alloc, path, Some(value), expected)),
    }
}

/// A group of tests that a configuration names: a text that is an identifier, plain or a tool's. An
/// `Err` for everything else, `@global` too.
pub fn deserialize_custom_test_group(
    alloc: Global,
    value: &Value,
    path: &[&str],
) -> Result<CustomTestGroup, ValueError>
    ensures { Gives path.now result (read.custom_test_group_in (view value.now)) }
{
    let expected = "an identifier, plain or `@tool:TOOL:NAME`";
    let Some(text) = value.as_str() else {
        return Err(refused(alloc, path, Some(value), expected));
    };
    match CustomTestGroup::from_text(alloc, text) {
        Ok(group) => Ok(group),
        Err(InvalidIdentifier::OutOfMemory) => Err(ValueError::OutOfMemory),
        Err(_) => Err(refused(alloc, path, Some(value), expected)),
    }
}

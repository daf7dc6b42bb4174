//! Identifiers of a configuration: which texts are plain identifiers, the names of tools and of
//! groups of tests, and the files of tools.
//!
//! An identifier is taken in its NFC, so that one name spelled in two ways is one identifier. A
//! plain identifier begins with a character that may start an identifier by Unicode (XID_Start);
//! each further one may continue one (XID_Continue) or is `-`. An identifier is a plain one, or
//! `@tool:TOOL:OWN` with two plain ones.
#![tactic(auto)]

mod config_identifier;
mod invalid_identifier;
pub mod laws;
mod plain;
mod source_kind;
mod test_group;
mod tool_config_file;
mod tool_name;
mod tool_parts;

pub use config_identifier::ConfigIdentifier;
pub use invalid_identifier::InvalidIdentifier;
pub use source_kind::ConfigSourceKind;
pub use test_group::{CustomTestGroup, TestGroup};
pub use tool_config_file::{BadToolConfig, ToolConfigFile, ToolConfigFileError};
pub use tool_name::ToolName;

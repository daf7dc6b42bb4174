//! The workspace whose tests are run: its record, the check of the record, and who lists a binary's
//! tests.
#![tactic(auto)]

mod ids;
mod list_fault;
mod lister;
mod record;
mod table_lister;
mod workspace;
mod workspace_error;
mod workspace_fault;

pub use ids::has_separator;
pub use list_fault::ListFault;
pub use lister::Lister;
pub use record::{Binary, BinaryKind, BinaryTests, BuildPlatform, Link, Package, WorkspaceRecord};
pub use table_lister::TableLister;
pub use workspace::Workspace;
pub use workspace_error::WorkspaceError;
pub use workspace_fault::WorkspaceFault;

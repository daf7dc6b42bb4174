// The configuration that is built in.
ghost use Rattle.std.specs.Prelude.{◌≡◌, IfOk};
ghost use Rattle.toml.specs.View.{table_view};
ghost use Rattle.nextest_config_resolution_profiles.specs.BuiltIn.{built_in_members};

use crate::default_config::DEFAULT_CONFIG;
use crate::laws::written_as;
use std::alloc::{AllocError, Global};
use toml::Table;

/// The lowest source of every configuration, as a tree: what `DEFAULT_CONFIG` says. It fails only
/// on allocation.
pub fn built_in(alloc: Global) -> Result<Table, AllocError>
    ensures { IfOk result (λ tree. table_view tree ≡ built_in_members) }
{
    written_as();
    match toml::table_from_str(alloc, DEFAULT_CONFIG) {
        Ok(tree) => Ok(tree),
        Err(error) if error.is_memory() => Err(AllocError),
        Err(_) => unreachable!(),
    }
}

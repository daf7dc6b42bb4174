// What a file has that it may not have.
ghost use Rattle.std.specs.Prelude.{◌≡◌, IfOk};
ghost use Rattle.toml.specs.View.{table_view};
ghost use Rattle.nextest_config_resolution_warnings.specs.Unknown.{unknown_keys};

use crate::walk::walk_file;
use nextest_config_elements_toml::KeyPath;
use nextest_text::Listing;
use std::alloc::{AllocError, Global};
use toml::Table;

/// The paths of the keys that `file`, a configuration, may not have, in order: tables by the bytes
/// of their keys, lists by position, and what is in a value where the value stands. Nothing below
/// such a key is looked at, nor a value with another type than its place has, which its reader
/// refuses. It fails only on allocation.
pub fn unknown_keys(alloc: Global, file: &Table) -> Result<Listing<KeyPath>, AllocError>
    ensures { IfOk result (λ found. found ≡ unknown_keys (table_view file.now)) }
{
    let mut found = Listing::new(alloc);
    walk_file(alloc, &mut found, file)?;
    Ok(found)
}

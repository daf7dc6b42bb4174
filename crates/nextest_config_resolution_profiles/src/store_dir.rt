// Where the files of a profile stand.
ghost use Rattle.std.specs.Prelude.{◌≡◌, IfOk};
ghost use Rattle.nextest_config_resolution_profiles.specs.Config.{dir_in_store, stands_alone};

use nextest_text::Text;
use std::alloc::{AllocError, Global};

// The directory of a profile's files: DIR/PROFILE where the store's directory begins at the root,
// or there is no workspace; and ROOT/DIR/PROFILE else.
pub(crate) fn dir_in_store(
    alloc: Global,
    root: &str,
    dir: &str,
    name: &str,
) -> Result<Text, AllocError>
    ensures { IfOk result (λ text. text ≡ dir_in_store root.now dir.now name.now) }
{
    if stands_alone(root, dir) {
        return Ok(Text::from(format!(in alloc; "{dir}/{name}")?));
    }
    Ok(Text::from(format!(in alloc; "{root}/{dir}/{name}")?))
}

// Whether a directory doesn't stand below a workspace.
fn stands_alone(root: &str, dir: &str) -> bool
    ensures { result ≡ stands_alone root.now dir.now }
{
    dir.starts_with("/") || root.is_empty()
}

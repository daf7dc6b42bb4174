// Which of the repository's sources are named, and which are looked for.
ghost use Rattle.std.specs.Prelude.{◌≡◌, IfOk};
ghost use Rattle.nextest_config_resolution_profiles.specs.Selection.{kind_by, selected_by};

use nextest_config_elements_identifiers::ConfigSourceKind;
use nextest_config_resolution_sources::{ConfigFileSelection, ConfigSource};
use std::alloc::{AllocError, Global};

// The sources, those of the repository as a selection says.
pub(crate) fn selected(
    alloc: Global,
    selection: &ConfigFileSelection,
    sources: &[ConfigSource],
) -> Result<Vec<ConfigSource>, AllocError>
    ensures { IfOk result (λ it. it.items ≡ selected_by selection.now sources.now) }
{
    let mut found = Vec::with_capacity(alloc, sources.len())?;
    for source in sources {
        found.push(ConfigSource {
            kind: kind_by(selection, &source.kind)?,
            path: source.path.clone()?,
            outcome: source.outcome.clone()?,
        })?;
    }
    Ok(found)
}

// Where a source comes from, as a selection says.
fn kind_by(
    selection: &ConfigFileSelection,
    kind: &ConfigSourceKind,
) -> Result<ConfigSourceKind, AllocError>
    ensures { IfOk result (λ it. it ≡ kind_by selection.now kind.now) }
{
    match kind {
        ConfigSourceKind::Tool(name) => Ok(ConfigSourceKind::Tool(name.clone()?)),
        ConfigSourceKind::ExplicitRepository | ConfigSourceKind::DiscoveredRepository => {
            Ok(selection.kind())
        }
    }
}

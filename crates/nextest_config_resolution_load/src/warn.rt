// What is told of files once they are accepted.
ghost use Rattle.std.specs.Prelude.{OnOk};
ghost use Rattle.toml.specs.View.{table_view};
ghost use Rattle.nextest_config_resolution_load.specs.Warn.{AreKept};
ghost use Rattle.nextest_config_resolution_warnings.specs.Warn.{told_of, warnings_of};

use nextest_config_resolution_sources::ConfigSource;
use nextest_config_resolution_warnings::KeptWarnings;
use std::alloc::AllocError;
use toml::Table;

// Keeps what is told of the file of a source, if anything is kept.
pub(crate) fn keep_warnings<'s>(
    kept: &mut Option<KeptWarnings<'s>>,
    source: &'s ConfigSource,
    file: &Table,
) -> Result<(), AllocError>
    ensures { OnOk result
        (AreKept kept.old kept.new (told_of source.now (warnings_of (table_view file.now)))) }
{
    match kept {
        Some(warnings) => warnings.keep(source, file),
        None => Ok(()),
    }
}

// Warnings that are kept, to be told later.
ghost use Rattle.std.specs.Prelude.{◌≡◌, ◌++◌, [], OnErr, OnOk};
ghost use Rattle.toml.specs.View.{table_view};
ghost use Rattle.nextest_config_resolution_warnings.specs.Warn.{Warns, WarnsPrefix, told_of, warnings_of};

use crate::config_warning::ConfigWarning;
use crate::file_warnings::warnings_of;
use crate::warn::tell_all;
use crate::warnings::ConfigWarnings;
use nextest_config_resolution_sources::ConfigSource;
use nextest_text::Listing;
use std::alloc::{AllocError, Global};
use std::marker::Model;
use toml::Table;

/// What is told of some files, in order, to be told later. In a clause it is the list of the
/// warnings, each with the source of its file.
#[derive(Drop)]
pub struct KeptWarnings<'s> {
    alloc: Global,
    files: Vec<FileWarnings<'s>>,
}

// What is told of the file of a source, with the source, lent.
#[derive(Drop)]
pub(crate) struct FileWarnings<'s> {
    pub(crate) source: &'s ConfigSource,
    pub(crate) warnings: Listing<ConfigWarning>,
}

impl<'s> Model for KeptWarnings<'s> {
    ghost use Rattle.std.specs.List.{flat_map};
    ghost use Rattle.std.specs.Prelude.{List};
    ghost use Rattle.nextest_config_resolution_sources.specs.declared.source.ConfigSource.{ConfigSource};
    ghost use Rattle.nextest_config_resolution_warnings.specs.Kept.{told_in};
    ghost use Rattle.nextest_config_resolution_warnings.specs.declared.config_warning.ConfigWarning.{ConfigWarning};

    ghost Value = { List (ConfigSource × ConfigWarning) };

    ghost view = { λ it. flat_map told_in it.files.items };
}

impl<'s> KeptWarnings<'s> {
    /// Nothing is kept, which takes no memory.
    pub fn new(alloc: Global) -> Self
        ensures { result ≡ [] }
    {
        KeptWarnings {
            alloc,
            files: Vec::new(alloc),
        }
    }

    /// Keeps what is told of `file`, the configuration of `source`, as `warnings_of` tells it,
    /// behind what was kept. It fails only on allocation, and then what was kept stays.
    pub fn keep(&mut self, source: &'s ConfigSource, file: &Table) -> Result<(), AllocError>
        ensures ok { OnOk result
            (self.new ≡ self.old ++ told_of source.now (warnings_of (table_view file.now))) }
        ensures err { OnErr result (self.new ≡ self.old) }
    {
        let warnings = warnings_of(self.alloc, file)?;
        self.files.push(FileWarnings { source, warnings })?;
        Ok(())
    }

    /// Tells all of these, in order. It fails only on allocation, and then a front of them was
    /// told.
    pub fn tell<W: ConfigWarnings>(&self, warnings: &mut W) -> Result<(), AllocError>
        ensures ok { OnOk result (Warns W.has_warned warnings.old warnings.new self.now) }
        ensures err { OnErr result (WarnsPrefix W.has_warned warnings.old warnings.new self.now) }
    {
        for file in &self.files {
            tell_all(warnings, file.source, file.warnings.as_slice())?;
        }
        Ok(())
    }
}

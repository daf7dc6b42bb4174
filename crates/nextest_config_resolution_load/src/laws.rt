//! What holds of loads. Each law is the contract of a function that does nothing.
ghost use Rattle.nextest_config_resolution_load.specs.Laws.{GroupsAreDefined, MergedFiles, NoFault, OneLoad, OneReason, ScriptsAreDefined, SomeLoad};

use crate::languages::Languages;

/// What files come to is their merged tree: at each path stands what the highest file that has
/// something there has, unless a file above that one has a leaf above the path. What is built in is
/// the lowest.
pub fn merged_files()
    ensures { MergedFiles }
{}

/// Sources are loaded to one list of values, if to any, and, where no text is too deep for the
/// reader of filters, they aren't refused then, and are refused for one reason.
pub fn one_load<R: Languages>()
    ensures one { (cx : R.Cx) → OneLoad (R.is_filter cx) R.is_spec R.is_too_deep }
    ensures no_fault { (cx : R.Cx) → NoFault (R.is_filter cx) R.is_spec R.is_too_deep }
    ensures one_reason { (cx : R.Cx) → OneReason (R.is_filter cx) R.is_spec R.is_too_deep }
{}

/// It can't be that sources are neither loaded nor refused.
pub fn some_load<R: Languages>()
    ensures { (cx : R.Cx) → SomeLoad (R.is_filter cx) R.is_spec R.is_too_deep }
{}

/// In what sources come to, each script that a script rule names is found among those of its kind,
/// and each group that an override names is defined.
pub fn scripts_are_defined<R: Languages>()
    ensures scripts { (cx : R.Cx) → ScriptsAreDefined (R.is_filter cx) R.is_spec }
    ensures groups { (cx : R.Cx) → GroupsAreDefined (R.is_filter cx) R.is_spec }
{}

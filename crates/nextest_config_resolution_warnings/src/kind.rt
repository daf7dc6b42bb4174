// What stands at a place of a configuration file.
use crate::listed::Listed;

/// What stands at a place of a configuration file.
#[derive(Clone, Copy, Debug, PartialEq, Eq)]
pub enum Kind {
    /// The whole file.
    Top,
    /// Which versions the file asks for.
    VersionTable,
    /// Where results are kept.
    Store,
    /// The profiles, by their names.
    Profiles,
    /// A table whose keys are in a list.
    Listed(Listed),
    /// When failing tests stop a run.
    FailFast,
    /// How failing tests are tried again.
    Retries,
    /// The same, with delays that are equal.
    FixedRetries,
    /// When something is slow.
    SlowTimeout,
    /// How long handles may stay open.
    LeakTimeout,
    /// What is set for some tests of a profile: a list.
    Overrides,
    /// The scripts that tests of a profile need: a list.
    ScriptRules,
    /// The groups of tests, by their names.
    TestGroups,
    /// A group of tests.
    TestGroup,
    /// The scripts, by their kinds.
    Scripts,
    /// The setup scripts, by their names.
    SetupScripts,
    /// A setup script.
    SetupScript,
    /// What a JUnit report has of a setup script.
    SetupScriptJunit,
    /// The wrapper scripts, by their names.
    Wrappers,
    /// A wrapper script.
    Wrapper,
    /// A command.
    Command,
    /// What isn't looked into.
    Anything,
}

// What refusals print.
use nextest_text::Text;
use std::alloc::{AllocError, Global};
use std::io;
use std::test::Fail;
use test_runner_core::{
    InputsError, InputsRefusal, JudgeFault, LineFault, ListFault, LogFault, ParseLineError,
    SpellingError, StartFault, StepRefusal, WorkspaceError, WorkspaceFault,
};
use test_runner_core_listing::{ListingError, ListingFault};
use test_runner_core_settings::{SettingsError, SettingsFault};

const OF_INPUTS: &str = "\
the inputs are no JSON, or too long
the inputs have at workspace.links.0.1 what is missing, ill-typed or not allowed
out of memory
two packages have one id
a link has an end that is no package
two binaries have one id
a binary is of no package
a binary's id is empty or has a tab or a line end in it
out of memory
two facts of a platform have the same name and the same value
out of memory
";

const OF_LISTS: &str = "\
gone
out of memory
a binary can't list its tests: gone
one of the tests has no name
the name of one of the tests has a tab or a line end in it
two tests of a binary have one name
out of memory
";

const OF_LOGS: &str = "\
the line is too long
the log is too long
the log ends within the line
the line isn't UTF-8
the line spells no event
out of memory
the line isn't UTF-8
the line spells no event
not all scripts ended yet
its attempts are over
out of memory
the log can't be read: gone
out of memory
the log can't be read: gone
out of memory
the report can't be written: full
";

// What those of inputs print, of workspaces and of settings.
fn of_inputs(alloc: Global) -> Result<String, AllocError> {
    let path = Text::from_str(alloc, "workspace.links.0.1")?;
    format!(in alloc;
        "{}\n{}\n{}\n{}\n{}\n{}\n{}\n{}\n{}\n{}\n{}\n",
        InputsError::Refused(InputsRefusal::Syntax),
        InputsError::Refused(InputsRefusal::Field(path)),
        InputsError::OutOfMemory,
        WorkspaceError::Refused(WorkspaceFault::RepeatedPackage),
        WorkspaceError::Refused(WorkspaceFault::UnknownLink),
        WorkspaceError::Refused(WorkspaceFault::RepeatedBinary),
        WorkspaceError::Refused(WorkspaceFault::UnknownPackage),
        WorkspaceError::Refused(WorkspaceFault::BadId),
        WorkspaceError::OutOfMemory,
        SettingsError::Refused(SettingsFault::RepeatedFact),
        SettingsError::OutOfMemory
    )
}

// What those of lists of tests print.
fn of_lists(alloc: Global) -> Result<String, AllocError> {
    let (gone, listed) = (
        Text::from_str(alloc, "gone")?,
        Text::from_str(alloc, "gone")?,
    );
    format!(in alloc;
        "{}\n{}\n{}\n{}\n{}\n{}\n{}\n",
        ListFault::Cause(gone),
        ListFault::OutOfMemory,
        ListingError::Refused(ListingFault::ListFault(listed)),
        ListingError::Refused(ListingFault::EmptyTestName),
        ListingError::Refused(ListingFault::BadTestName),
        ListingError::Refused(ListingFault::RepeatedTest),
        ListingError::OutOfMemory
    )
}

// What those of logs, of steps and of judging print.
fn of_logs(alloc: Global) -> Result<String, AllocError> {
    format!(in alloc;
        "{}\n{}\n{}\n{}\n{}\n{}\n{}\n{}\n{}\n{}\n{}\n{}\n{}\n{}\n{}\n{}\n",
        LineFault::LineTooLong,
        LineFault::LogTooLong,
        LineFault::NoLineEnd,
        ParseLineError::NotUtf8,
        ParseLineError::BadLine,
        ParseLineError::OutOfMemory,
        SpellingError::NotUtf8,
        SpellingError::BadLine,
        StepRefusal::ScriptsPending,
        StartFault::Refused(StepRefusal::Finished),
        StartFault::OutOfMemory,
        LogFault::Read(io::Error::other("gone")),
        LogFault::Memory,
        JudgeFault::from(LogFault::Read(io::Error::other("gone"))),
        JudgeFault::from(LogFault::Memory),
        JudgeFault::Write(io::Error::other("full"))
    )
}

#[test]
fn refusals_print(rt: HostRuntime) -> Result<(), Fail> {
    assert!(rt; of_inputs(rt.alloc())?.as_str() == OF_INPUTS);
    assert!(rt; of_lists(rt.alloc())?.as_str() == OF_LISTS);
    assert!(rt; of_logs(rt.alloc())?.as_str() == OF_LOGS);
    Ok(())
}

// What a failed test says of its error.
ghost use Rattle.nextest_run_events.specs.Collected.{IsLoaded, IsSliceOf};
ghost use Rattle.nextest_run_events.specs.UnitKind.TheVariants as unit;

use nextest_run_events::{
    ChildExecutionOutputDescription, LiveSpec, TestOutputErrorSlice, UnitErrorDescription, UnitKind,
};

/// The part of a test's output that tells of its error.
pub fn error_of(
    output: &ChildExecutionOutputDescription<LiveSpec>,
) -> Option<TestOutputErrorSlice<'_>>
    requires { IsLoaded output.now }
    ensures { IsSliceOf unit.Test output.now result }
{
    UnitErrorDescription::new(UnitKind::Test, output).output_slice()
}

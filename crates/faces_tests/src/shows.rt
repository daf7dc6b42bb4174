// What is shown of a failed test.
ghost use Rattle.std.specs.Prelude.{◌≡◌, None};
ghost use Rattle.nextest_run_events.specs.FinalStatusLevel.TheVariants as final_level;
ghost use Rattle.nextest_run_events.specs.TestOutputDisplay.TheVariants as display;
ghost use Rattle.nextest_run_events.specs.Visibility.{is_stored};

use nextest_run_events::{
    ExecutionResultDescription, FinalStatusLevel, OutputStoreFinal, StatusLevel, StatusLevels,
    TestOutputDisplay,
};

/// Whether something is kept for the end of a run of a test that failed, where the run goes on and
/// outputs are shown when tests end.
pub fn keeps_failure(levels: StatusLevels, ended: &ExecutionResultDescription) -> bool
    ensures { result
        ≡ is_stored display.Immediate None levels.final_status_level final_level.Fail ended.now }
{
    let shown = levels.compute_output_on_test_finished(
        TestOutputDisplay::Immediate,
        None,
        StatusLevel::Fail,
        FinalStatusLevel::Fail,
        ended,
    );
    matches!(shown.store_final, OutputStoreFinal::Yes { .. })
}

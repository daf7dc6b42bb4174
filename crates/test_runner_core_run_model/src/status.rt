// The exit status of a run.
ghost use Rattle.std.specs.Prelude.{◌≡◌};
ghost use Rattle.test_runner_core_run_model.specs.Counters.{status_at, status_of};

use nextest_run_events_counters::{FinalRunStats, RunStatsFailureKind};

/// The exit status of a run that came to this: 0 for a success, 4 where no test ran, 105 where it
/// failed or was cut short at the setup scripts, and 100 at the tests.
pub fn exit_status(outcome: FinalRunStats) -> u8
    ensures { result ≡ status_of outcome }
{
    match outcome {
        FinalRunStats::Success => 0,
        FinalRunStats::NoTestsRun => 4,
        FinalRunStats::Cancelled { kind, .. } => failure_status(kind),
        FinalRunStats::Failed { kind } => failure_status(kind),
    }
}

// The status of a run that failed or was cut short at this.
fn failure_status(kind: RunStatsFailureKind) -> u8
    ensures { result ≡ status_at kind }
{
    match kind {
        RunStatsFailureKind::SetupScript => 105,
        RunStatsFailureKind::Test { .. } => 100,
    }
}

// The outcome of two runs.
ghost use Rattle.std.specs.Prelude.{◌≡◌};
ghost use Rattle.nextest_run_events.specs.Outcome.{higher_of};

use nextest_run_events::RunOutcome;

/// The worse of two outcomes.
pub fn worse(one: RunOutcome, other: RunOutcome) -> RunOutcome
    ensures { result ≡ higher_of one other }
{
    one.combine(other)
}

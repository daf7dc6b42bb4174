// A run that is followed as it goes.
ghost use Rattle.std.specs.Prelude.{◌≡◌, IfOk};
ghost use Rattle.test_runner_core.specs.Counters.{status};

use test_runner_core::{Record, Session, StepRefusal, TestInstanceId};

/// An attempt of a test ended: the exit status of the run so far.
pub fn ended(
    session: &mut Session<'_>,
    test: TestInstanceId<'_>,
    record: Record,
) -> Result<u8, StepRefusal>
    ensures plan { session.new.plan ≡ session.old.plan }
    ensures so_far { IfOk result (λ code. code ≡ status session.new.run) }
{
    session.attempt_finished(test, record)?;
    Ok(session.status())
}

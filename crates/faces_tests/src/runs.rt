// A run that was recorded is judged again.
ghost use Rattle.std.specs.Prelude.{◌^◌, ◌<◌, IfOk};
ghost use Rattle.test_runner_core.specs.Headline.{StreamHeadline};

use std::alloc::Global;
use test_runner_core::{JudgeFault, MemoryReader, ReportWriter, judge_stream};

/// Judges a recorded run, writes its report and answers its exit status.
pub fn replay<W: ReportWriter>(
    alloc: Global,
    recorded: &[u8],
    report: &mut W,
) -> Result<u8, JudgeFault>
    requires writes_fit { W.failures report.old < 2 ^ 62 }
    ensures headline { IfOk result (λ status.
        StreamHeadline recorded.now status (W.taken report.old) (W.taken report.new)) }
{
    let mut input = MemoryReader::new(recorded, 65_536);
    judge_stream(alloc, &mut input, report)
}

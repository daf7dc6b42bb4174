// Reporting what the report of a planned run begins with.
ghost use Rattle.std.specs.Prelude.{◌≡◌, ◌^◌, ◌<◌, [], ◌∷◌, string_bytes};
ghost use Rattle.test_runner_core_reporter.specs.Opening.{opening, warning};
ghost use Rattle.test_runner_core_reporter.specs.Writes.{WritesParts, CountsWriteFailures};

use crate::fault::ReportFault;
use crate::reporting::report_words;
use nextest_text::Text;
use std::alloc::Global;
use test_runner_core_plan::Plan;
use test_runner_core_streams::ReportWriter;

/// Reports what the report of a planned run begins with: its warnings, a line each.
pub fn report_opening<W: ReportWriter>(
    alloc: Global,
    text: &mut String,
    report: &mut W,
    plan: &Plan,
) -> Result<(), ReportFault>
    requires writes_fit { W.failures report.old < 2 ^ 63 }
    ensures writes { WritesParts result (opening plan.now) (W.taken report.old)
        (string_bytes text.old) (W.taken report.new) (string_bytes text.new) }
    ensures failures { CountsWriteFailures result (W.failures report.old) (W.failures report.new)
        (W.last_failed report.new) }
{
    for told in plan.warnings.as_slice() {
        report_warning(alloc, text, report, told)?;
    }
    Ok(())
}

// Reports a warning.
fn report_warning<W: ReportWriter>(
    alloc: Global,
    text: &mut String,
    report: &mut W,
    told: &Text,
) -> Result<(), ReportFault>
    requires writes_fit { W.failures report.old < 2 ^ 63 }
    ensures writes { WritesParts result (warning told.now ∷ []) (W.taken report.old)
        (string_bytes text.old) (W.taken report.new) (string_bytes text.new) }
    ensures failures { CountsWriteFailures result (W.failures report.old) (W.failures report.new)
        (W.last_failed report.new) }
{
    let words = format!(in alloc; "warning\t{told}\n")?;
    report_words(text, report, words.as_str())
}

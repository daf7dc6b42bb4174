// What is shown of a finished test.
use crate::ends::described_end;
use crate::page::Page;
use crate::parts::{Word, three};
use crate::values::word_as;
use crate::{show, some};
use nextest_config_elements::{FinalStatusLevel, StatusLevel, TestOutputDisplay};
use nextest_run_events::{CancelReason, OutputStoreFinal, StatusLevels};

fn kept_words(kept: OutputStoreFinal) -> &'static str {
    match kept {
        OutputStoreFinal::No => "not stored",
        OutputStoreFinal::Yes {
            display_output: false,
        } => "stored without output",
        OutputStoreFinal::Yes {
            display_output: true,
        } => "stored with output",
    }
}

// A display, a reason or `-`, the level and the final level of a test, and how it ended: whether
// its line is written, whether its output is shown at once, and what is kept for the end, where the
// levels that are set are `pass` and, at the end, `fail`.
pub(crate) fn visibility(page: &mut Page, input: &str) -> Option<()> {
    let (display, reason, rest) = three(input);
    let (level, final_level, end) = three(rest);
    let levels = StatusLevels {
        status_level: StatusLevel::Pass,
        final_status_level: FinalStatusLevel::Fail,
    };
    let shown = levels.compute_output_on_test_finished(
        some!(word_as::<TestOutputDisplay>(page.alloc, display)),
        CancelReason::of_word(page.alloc, reason),
        some!(word_as::<StatusLevel>(page.alloc, level)),
        some!(word_as::<FinalStatusLevel>(page.alloc, final_level)),
        &some!(described_end(page.alloc, end)),
    );
    let (line, at_once) = (shown.write_status_line, shown.show_immediate);
    page.show(if line { "line, " } else { "no line, " });
    page.show(if at_once {
        "immediate, "
    } else {
        "not immediate, "
    });
    page.show(kept_words(shown.store_final));
    Some(())
}

// A display: whether output is shown at once, and whether at the end.
pub(crate) fn displays(page: &mut Page, input: &str) -> Option<()> {
    let display = some!(word_as::<TestOutputDisplay>(page.alloc, input));
    show!(page; "at once ", display.is_immediate(), ", at the end ", display.is_final());
    Some(())
}

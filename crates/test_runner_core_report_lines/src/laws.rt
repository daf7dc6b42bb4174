//! What holds of every report of a test. Each function does nothing, and its contract is the law.
ghost use Rattle.test_runner_core_report_lines.specs.Laws.{EndIsSpelled, HasLevels, HasOneDone, HasOneShown, HasSomeDone, HasSomeShown, ResultIsSpelled};

/// A result that a log line spells is reported by a text that spells it.
pub fn result_is_spelled()
    ensures { ResultIsSpelled }
{}

/// Result, slowness and time of an attempt whose end a log line spells are reported as that line
/// spells them.
pub fn end_is_spelled()
    ensures { EndIsSpelled }
{}

/// The levels by which what is due of a finished test is reported are those of the description of
/// its attempts.
pub fn levels_are_described()
    ensures { HasLevels }
{}

/// What is written as a test finishes is one text: the test, and what is set, determine it.
pub fn one_done()
    ensures one { HasOneDone }
    ensures some { HasSomeDone }
{}

/// The part of a test in the final text is one text.
pub fn one_shown()
    ensures one { HasOneShown }
    ensures some { HasSomeShown }
{}

//! What holds of every spelling and every reading. Each function does nothing, and its contract is
//! the law.
ghost use Rattle.test_runner_core_line_syntax.specs.Laws.{OneEvent, OneSpelling, OneReading};

/// No line spells two events.
pub fn one_event()
    ensures { OneEvent }
{}

/// No event is spelled by two lines.
pub fn one_spelling()
    ensures { OneSpelling }
{}

/// Two readings of one line that didn't run out of memory are the same.
pub fn one_reading()
    ensures { OneReading }
{}

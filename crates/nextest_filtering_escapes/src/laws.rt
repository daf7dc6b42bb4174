//! What holds of every text, and of how it prints. Each function does nothing, and its contract is
//! the law.
ghost use Rattle.nextest_filtering_escapes.specs.Laws.{OneText, OneReading, OneRegex, BadEscapesStay, EscapedReadsBack, EscapedHasNoBlankEnds, PlainAround};

/// Bytes stand for at most one text.
pub fn one_text()
    ensures { OneText }
{}

/// Bytes are read in at most one way, bad escapes included.
pub fn one_reading()
    ensures { OneReading }
{}

/// The bad escapes of bytes with the end of a text behind them are bad escapes of all: a backslash
/// is told alone only where it is the last byte of all.
pub fn bad_escapes_stay()
    ensures { BadEscapesStay }
{}

/// Bytes stand for at most one regular expression.
pub fn one_regex()
    ensures { OneRegex }
{}

/// What is printed of a text is read as that text.
pub fn escaped_reads_back()
    ensures { EscapedReadsBack }
{}

/// What is printed of a text begins as the text or with a backslash, and neither begins nor ends
/// with a blank.
pub fn escaped_has_no_blank_ends()
    ensures { EscapedHasNoBlankEnds }
{}

/// Blanks around a text stand for themselves.
pub fn plain_around()
    ensures { PlainAround }
{}

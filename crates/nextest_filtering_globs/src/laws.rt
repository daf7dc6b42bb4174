//! What holds of every glob. Each function does nothing, and its contract is the law.
ghost use Rattle.nextest_filtering_globs.specs.Laws.{OneReading};

/// A text spells at most one list of tokens.
pub fn one_reading()
    ensures { OneReading }
{}

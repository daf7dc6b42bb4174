//! What holds of all priorities, and of all texts of durations. Each function does nothing, and its
//! contract is the law.
ghost use Rattle.nextest_config_elements_values.specs.Laws.{GreaterFirst};
ghost use Rattle.nextest_config_elements_values.specs.DurationLaws.{OneDuration, NanosOfDurations};

use super::priority::TestPriority;

/// Tests of greater priorities come first.
pub fn greater_first()
    ensures { GreaterFirst ⟦<TestPriority as Ord>⟧.cmp }
{}

/// A text is at most one duration.
pub fn one_duration()
    ensures { OneDuration }
{}

/// The nanoseconds that a text has are those of the duration that it is; a text that is none has no
/// nanoseconds.
pub fn nanos_of_durations()
    ensures { NanosOfDurations }
{}

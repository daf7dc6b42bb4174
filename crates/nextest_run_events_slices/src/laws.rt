//! That an output has one answer. Each law is the contract of a function without parameters.
ghost use Rattle.nextest_run_events_slices.specs.Laws.{HasOneStop, HasOneTaken, HasOneSlice, HasSomeSlice};

/// Panic messages that start at one place end at one place.
pub fn one_stop()
    ensures { HasOneStop }
{}

/// An output has one list of the panic messages that are taken.
pub fn one_taken()
    ensures { HasOneTaken }
{}

/// The outputs of a test have one answer: of one kind, from one place on, with the same bytes; and
/// it can't be that they have none.
pub fn one_slice()
    ensures one { HasOneSlice }
    ensures some { HasSomeSlice }
{}

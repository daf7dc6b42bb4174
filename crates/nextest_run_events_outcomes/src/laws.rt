//! What holds of all outcomes. Each function does nothing, and its contract is the law.
ghost use Rattle.nextest_run_events_outcomes.specs.Laws.{IsCommutative, IsAssociative, IsIdempotent, IsNeutral, OneHighest, InAnyOrder};

/// Combined outcomes may change places.
pub fn commutative()
    ensures { IsCommutative }
{}

/// Three outcomes may be combined from either side.
pub fn associative()
    ensures { IsAssociative }
{}

/// An outcome combined with itself is that outcome.
pub fn idempotent()
    ensures { IsIdempotent }
{}

/// `NoTestsRun` combined with an outcome is that outcome, on either side.
pub fn no_tests_run_is_neutral()
    ensures { IsNeutral }
{}

/// Two outcomes that are highest of the same list are equal.
pub fn one_highest()
    ensures { OneHighest }
{}

/// What is highest of a list is highest of its elements in any order.
pub fn in_any_order()
    ensures { InAnyOrder }
{}

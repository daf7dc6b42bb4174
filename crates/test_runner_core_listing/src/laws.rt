//! What holds of all filters in force, and of all that is listed. The functions do nothing, and
//! their contracts are the laws.
ghost use Rattle.test_runner_core_listing.specs.Laws.{AcceptsElse, AnswersOnce, FindsWhereAccepted, HasAnswers, RefusesByFirst, RefusesWhereRefused};

use nextest_filtering_filters::GroupLookup;

/// Filters that are compiled from texts list some binaries and select some of their tests, whatever
/// these are and whatever their groups, and in one way: so what `select` promises of all answers of
/// its filters it promises of the one.
pub fn one_selection<G: GroupLookup>()
    ensures exists { HasAnswers G.member }
    ensures once { AnswersOnce G.member }
{}

/// Names are refused by the first of them that is empty, has a tab or a line end in it, or equals
/// one before it, and for the first of these reasons; and accepted where there is none such.
pub fn first_bad_name()
    ensures refuses { RefusesByFirst }
    ensures accepts { AcceptsElse }
{}

/// What is found in binaries are the tests that are selected in each, one binary after another,
/// exactly where each one's answer is accepted; they are refused exactly where there is a first one
/// whose answer is refused, and as that is.
pub fn whole_listing()
    ensures finds { FindsWhereAccepted }
    ensures refuses { RefusesWhereRefused }
{}

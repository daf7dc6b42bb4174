//! What holds of all filters. Each function does nothing, and its contract is the law.
ghost use Rattle.nextest_filtering_filters.specs.Laws.{OneAnswer, SameWithoutGroups, SameWithoutLookup, SureOfTests};
ghost use Rattle.nextest_filtering_filters.specs.FormulaLaws.{Stays};
ghost use Rattle.nextest_filtering_filters.specs.WorkedRows.{WorkedRows};

use crate::group_lookup::GroupLookup;

/// The one value that a filter has on a binary is the one that it has on each of the binary's
/// tests, whoever is asked for groups.
pub fn sure_of_tests<G: GroupLookup>()
    ensures { SureOfTests G.member }
{}

/// Where neither a filter nor the default filter asks for a group, it is the same on a test whoever
/// is asked for groups.
pub fn same_without_groups<G: GroupLookup, H: GroupLookup>()
    ensures { SameWithoutGroups G.member H.member }
{}

/// Where neither a filter nor the default filter asks for a group, it is on a test by a look-up
/// what it is where nobody knows of a group: `matches_test_with_groups` answers what `matches_test`
/// does.
pub fn same_without_lookup<G: GroupLookup>()
    ensures { SameWithoutLookup G.member }
{}

/// A filter doesn't both hold and not hold on a test, whoever is asked for groups.
pub fn one_answer<G: GroupLookup>()
    ensures { OneAnswer G.member }
{}

/// A formula that has one value whatever its leaves are has it also where more is known of them.
pub fn stays()
    ensures { Stays }
{}

/// Worked rows, whose values were found by hand: the definitions give them.
pub fn worked_rows()
    ensures { WorkedRows }
{}

//! What holds of all levels and of all limits. Each law is the contract of a function without
//! parameters.
ghost use Rattle.nextest_config_elements_choices.specs.Laws.{OneMaxFail, ReadsBack, RisesByRank};
ghost use Rattle.nextest_config_elements_choices.specs.Levels.{rank, final_rank};

use super::status_level::{FinalStatusLevel, StatusLevel};

/// The levels rise by their rank.
pub fn levels_rise()
    ensures { RisesByRank rank ⟦<StatusLevel as Ord>⟧.cmp }
{}

/// The levels of a summary rise by their rank.
pub fn final_levels_rise()
    ensures { RisesByRank final_rank ⟦<FinalStatusLevel as Ord>⟧.cmp }
{}

/// What is printed of a limit is read as that limit: of `MaxFail::All`, and of each number from 1
/// to 2^63 - 1.
pub fn reads_back()
    ensures { ReadsBack }
{}

/// A text is at most one limit.
pub fn one_max_fail()
    ensures { OneMaxFail }
{}

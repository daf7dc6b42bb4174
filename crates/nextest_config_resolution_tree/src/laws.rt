//! What holds of merged trees and their lists. Each function does nothing, and its contract is the
//! law.
ghost use Rattle.nextest_config_resolution_tree.specs.Laws.{MergedByOver, OneStanding, ReadAtPath};

/// Files of which each is over the lower ones have at each path what the highest file that has
/// something there has, unless a file above that one has a leaf above the path.
pub fn merged_by_over()
    ensures { MergedByOver }
{}

/// At a path of a merged tree stands at most one thing.
pub fn one_standing()
    ensures { OneStanding }
{}

/// The run of a path in the list of a tree has the ends of what stands at the path, and is empty
/// where nothing does.
pub fn read_at_path()
    ensures { ReadAtPath }
{}

//! What holds of the keys that no configuration has. Each law is the contract of a function that
//! does nothing.
ghost use Rattle.nextest_config_resolution_warnings.specs.Laws.{FindsInOrder, FindsOnce, FindsUnknown};

/// Where the keys of each table rise by their bytes, what `unknown_keys` looks for is found exactly
/// where it stands: known keys lead to a table that has a key which isn't known there. It is found
/// in the order in which it stands, depth first, and once, where no list has 2 ^ 64 items, as none
/// in memory has.
pub fn unknown_is_found()
    ensures exact { FindsUnknown }
    ensures in_order { FindsInOrder }
    ensures once { FindsOnce }
{}

//! What holds of every value that is read. Each law is the contract of a function that does
//! nothing.
ghost use Rattle.nextest_config_elements_deserialize.specs.Laws.{AcceptedPolicy, AcceptedSlowTimeout};

/// A value is read as a retry policy exactly if it is that policy by what stands under its keys, in
/// whatever order they are looked at.
pub fn accepted_policy()
    ensures { AcceptedPolicy }
{}

/// A value is read as a slow timeout exactly if it is that one by what stands under its keys, in
/// whatever order they are looked at.
pub fn accepted_slow_timeout()
    ensures { AcceptedSlowTimeout }
{}

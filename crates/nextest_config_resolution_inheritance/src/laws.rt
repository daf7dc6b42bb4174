//! What holds of all profiles. Each law is the contract of a function that does nothing.
ghost use Rattle.nextest_config_resolution_inheritance.specs.Laws.{NoEnd, NoFault, OneChain, OneFault, OneVerdict};

/// Profiles have at most one first fault.
pub fn one_fault()
    ensures { OneFault }
{}

/// Accepted profiles have no fault.
pub fn no_fault()
    ensures { NoFault }
{}

/// A profile comes to no end exactly if none of its ancestors is `default`.
pub fn no_end()
    ensures { NoEnd }
{}

/// Each profile of accepted profiles has exactly one chain.
pub fn one_chain()
    ensures { OneChain }
{}

/// Profiles are accepted, or have a first fault.
pub fn one_verdict()
    ensures { OneVerdict }
{}

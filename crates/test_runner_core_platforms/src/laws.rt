//! What holds of every platform spec. Each law is the contract of a function that does nothing.
ghost use Rattle.test_runner_core_platforms.specs.Laws.{HasOneValue, OneSpec, SomeValue};

/// A text is at most one spec.
pub fn one_spec()
    ensures { OneSpec }
{}

/// A spec has one value on a platform, which is told by three values.
pub fn one_value()
    ensures some { SomeValue }
    ensures one { HasOneValue }
{}

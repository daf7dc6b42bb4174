//! What holds of all lists of sources, and of all texts that ask for a version. Each function does
//! nothing, and its contract is the law.
ghost use Rattle.nextest_config_elements_versions.specs.Laws.{OneConfig, EachComes, Partition, PartitionOfSources, Associative, Neutral, ShortVersion};

/// A list comes to at most one result.
pub fn one_config()
    ensures { OneConfig }
{}

/// Each list comes to what its sources come to, merged one by one.
pub fn each_comes()
    ensures { EachComes }
{}

/// A list comes to what its two parts come to, merged.
pub fn partition()
    ensures { Partition }
{}

/// A list of sources comes to what its two parts come to, merged, or is refused as the first part
/// that is.
pub fn partition_of_sources()
    ensures { PartitionOfSources }
{}

/// Merging is associative.
pub fn associative()
    ensures { Associative }
{}

/// What no sources come to changes nothing.
pub fn neutral()
    ensures { Neutral }
{}

/// A text that is no version itself asks for one only if it is `X.Y`, and then for `X.Y.0`.
pub fn short_version()
    ensures { ShortVersion }
{}

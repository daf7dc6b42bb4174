//! What holds of the values. Each function does nothing, and its contract is the law.

pub use nextest_config_elements_choices::laws::{
    final_levels_rise, levels_rise, one_max_fail, reads_back as limit_reads_back,
};
pub use nextest_config_elements_deserialize::laws::{accepted_policy, accepted_slow_timeout};
pub use nextest_config_elements_identifiers::laws::{one_identifier, tool_identifier};
pub use nextest_config_elements_values::laws::{greater_first, nanos_of_durations, one_duration};
pub use nextest_config_elements_versions::laws::{
    associative as versions_merge_associatively, each_comes as each_list_comes,
    neutral as no_sources_change_nothing, one_config, partition as a_list_is_its_parts,
    partition_of_sources, short_version,
};

//! What holds of configurations. Each function does nothing, and its contract is the law.

pub use nextest_config_resolution_commands::laws::{accepted_command, one_split, words_by_pieces};
pub use nextest_config_resolution_inheritance::laws::{
    no_end, no_fault, one_chain, one_fault, one_verdict,
};
pub use nextest_config_resolution_keys::laws::{
    accepted_profile, reads_each, refused_for, refused_profile,
};
pub use nextest_config_resolution_load::laws::{
    merged_files, one_load, scripts_are_defined, some_load,
};
pub use nextest_config_resolution_overrides::laws::{accepted_override, refused_override};
pub use nextest_config_resolution_profiles::laws::{
    accepted as built_in_is_accepted, default_is_read, early_default, group_of_settings,
    has_all_but as built_in_has_all_but, kept_profile, more_enable_no_fewer, never_falls_back,
    no_fallback, no_rules, nothing_is_undefined, numbered_rows, one_held, one_profile,
    profile_isolation, read_as as built_in_is_read_as, rules_are_read, same_chain, sets_store_dir,
    some_profile, some_settings, written_as as built_in_is_written_as,
};
pub use nextest_config_resolution_scripts::laws::{
    accepted_names, accepted_script_rule, accepted_setup_script, accepted_wrapper_script,
    named_is_found, refused_script_rule,
};
pub use nextest_config_resolution_settings::laws::{
    held_rules, least_rule, one_least, one_setting, same_settings,
};
pub use nextest_config_resolution_tree::laws::{merged_by_over, one_standing, read_at_path};
pub use nextest_config_resolution_warnings::laws::unknown_is_found;

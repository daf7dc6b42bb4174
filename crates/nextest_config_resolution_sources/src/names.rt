// The names that a configuration is found by.

/// The path of the repository's file that is looked for, from the workspace's root.
pub const CONFIG_PATH: &str = ".config/nextest.toml";

/// What the names of the environment's settings begin with.
pub const ENVIRONMENT_PREFIX: &str = "NEXTEST";

/// The profile that holds where none is chosen.
pub const DEFAULT_PROFILE: &str = "default";

/// The profile that holds under Miri where none is chosen.
pub const DEFAULT_MIRI_PROFILE: &str = "default-miri";

/// The profiles that each configuration has.
pub const DEFAULT_PROFILES: [&str; 2] = [DEFAULT_PROFILE, DEFAULT_MIRI_PROFILE];

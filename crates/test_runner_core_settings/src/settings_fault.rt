// Why the configuration of inputs sets nothing.
use nextest_config_resolution_load::LoadFault;
use nextest_config_resolution_profiles::ProfileNotFound;
use thiserror::Error;

/// Why the configuration of inputs sets nothing for their run, in the order in which the reasons
/// are looked for.
#[derive(Debug, PartialEq, Eq, Drop, Error)]
pub enum SettingsFault {
    /// The configuration isn't loaded.
    #[error(transparent)]
    Load(LoadFault),
    /// There is no profile of the chosen name.
    #[error(transparent)]
    ProfileNotFound(ProfileNotFound),
    /// Two facts of a platform have the same name and the same value.
    #[error("two facts of a platform have the same name and the same value")]
    RepeatedFact,
}

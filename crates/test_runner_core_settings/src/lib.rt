//! What the configuration of inputs sets: for their run, at which weight failing tests stop it and
//! what is shown of tests; and the settings of each test; or why there is no such configuration or
//! profile.
#![tactic(auto)]

mod configured;
pub mod laws;
mod owned;
mod pass;
mod pass_error;
mod platforms;
mod settings_error;
mod settings_fault;
mod sources;
mod warning;

pub use configured::{ChosenRun, ConfiguredRun, RunConfig, RunSettings, configure, run_settings};
pub use owned::owned_settings;
pub use pass::{VersionPass, version_pass};
pub use pass_error::{VersionPassError, VersionPassFault};
pub use settings_error::SettingsError;
pub use settings_fault::SettingsFault;

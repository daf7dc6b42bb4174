//! What is warned of in a configuration file, and how that is told: unknown keys and reserved
//! profiles, scripts where they stood before, and script rules that name none.
#![tactic(auto)]

mod config_warning;
mod default_warnings;
mod file_warnings;
mod kept_warnings;
mod keys;
mod kind;
pub mod laws;
mod listed;
mod reserved;
mod scripts;
mod shown;
mod step;
mod texts;
mod unknown;
mod walk;
mod warn;
mod warnings;

pub use config_warning::ConfigWarning;
pub use default_warnings::DefaultConfigWarnings;
pub use file_warnings::warnings_of;
pub use kept_warnings::KeptWarnings;
pub use kind::Kind;
pub use listed::Listed;
pub use reserved::unknown_reserved_profiles;
pub use shown::Shown;
pub use unknown::unknown_keys;
pub use warn::warn_file;
pub use warnings::ConfigWarnings;

//! What a user of the faces writes: this crate names no other crate of the repository, and its
//! clauses cite the definitions that the faces hand on.
#![tactic(auto)]

mod codes;
mod errors;
mod exports;
mod filters;
mod listers;
mod logs;
mod outcomes;
mod plans;
mod runs;
mod sessions;
mod settings;
mod shows;
mod values;

pub use errors::error_of;
pub use exports::{
    faces_tests_configuration, faces_tests_filterset, faces_tests_log, faces_tests_platform_spec,
    faces_tests_stream,
};
pub use filters::{chosen, on_binary, on_test, read_filterset};
pub use listers::Suite;
pub use logs::interrupted;
pub use outcomes::worse;
pub use plans::planned;
pub use runs::replay;
pub use sessions::ended;
pub use settings::{configured, tried_again};
pub use shows::keeps_failure;
pub use values::retries;

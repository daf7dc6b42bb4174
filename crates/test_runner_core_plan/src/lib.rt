//! What a plan is: the tests that a run runs, in which order and with which settings. How plans are
//! made stands in `test_runner_core_planning`; a session and a report stand on the type alone.
#![tactic(auto)]

mod keyed_state;
mod order;
mod plan;
mod plan_settings;
mod shared_settings;

pub use keyed_state::{KeyedState, TextsDigest};
pub use order::in_order;
pub use plan::{Plan, PlanTest};
pub use plan_settings::PlanSettings;
pub use shared_settings::SharedSettings;

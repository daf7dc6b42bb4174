//! What holds of reasons, outcomes, JSON forms, slices of outputs and what is shown. Each function
//! does nothing, and its contract is the law.

pub use nextest_run_events_json::laws::{
    abort_read_back, error_read_back, failure_read_back, result_read_back,
};
pub use nextest_run_events_outcomes::laws::{
    associative, commutative, idempotent, in_any_order, no_tests_run_is_neutral, one_highest,
};
pub use nextest_run_events_results::laws::reasons_rise;
pub use nextest_run_events_slices::laws::{one_slice, one_stop, one_taken};
pub use nextest_run_events_visibility::laws::{
    graver_reasons_hide, no_reason_shows_most, reasons_weigh,
};

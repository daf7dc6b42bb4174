//! What holds of all reasons. Each law is the contract of a function without parameters.
ghost use Rattle.std.specs.Prelude.{◌≡◌};
ghost use Rattle.std.specs.Ordering.{nat_cmp};
ghost use Rattle.nextest_run_events_results.specs.Cancel.{gravity};
ghost use Rattle.nextest_run_events_results.specs.declared.cancel_reason.CancelReason.{CancelReason as Reason};

use super::cancel_reason::CancelReason;

/// The order of reasons is that of their gravity.
pub fn reasons_rise()
    ensures { (one other : Reason)
        → ⟦<CancelReason as Ord>⟧.cmp one other ≡ nat_cmp (gravity one) (gravity other) }
{}

//! What holds whatever is shown. Each function does nothing, and its contract is the law.
ghost use Rattle.std.specs.Prelude.{◌≡◌, Option};
ghost use Rattle.std.specs.Ordering.{nat_cmp};
ghost use Rattle.nextest_run_events_results.specs.declared.cancel_reason.CancelReason.{CancelReason as Reason};
ghost use Rattle.nextest_run_events_visibility.specs.Laws.{GraverHides, NoneShowsMost};
ghost use Rattle.nextest_run_events_visibility.specs.Visibility.{weight};

use nextest_run_events_results::CancelReason;

/// The order of reasons, with no reason below all, is that of their weight.
pub fn reasons_weigh()
    ensures { (one other : Option Reason)
        → ⟦<Option<CancelReason> as Ord>⟧.cmp one other ≡ nat_cmp (weight one) (weight other) }
{}

/// A graver reason only ever hides: where the run did not end a test under the lesser of two
/// reasons, no reason being the least, nothing is shown of the test under the greater one that is
/// not shown under the lesser. The status line is the same.
pub fn graver_reasons_hide()
    ensures { GraverHides }
{}

/// Whatever a run was cancelled for, nothing is shown of a test that is not shown where the run
/// goes on. The status line is the same.
pub fn no_reason_shows_most()
    ensures { NoneShowsMost }
{}

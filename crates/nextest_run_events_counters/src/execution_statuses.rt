// The attempts of a test.
ghost use Rattle.std.specs.Prelude.{◌≡◌, ◌≢◌, ℕ, ◌+◌, ◌<◌, ◌≤◌, ◌↔◌, [], ◌∷◌, ◌++◌, Some, length, IfOk, IsOk, IsErr, OnOk, OnErr};
ghost use Rattle.std.specs.Slice.Iter.{iter_rest};
ghost use Rattle.nextest_run_events_counters.specs.Attempts.{last};
ghost use Rattle.nextest_run_events_counters.specs.Description.{description_of, description_in, HoldsSuccess};

use super::execution_description::ExecutionDescription;
use super::roomy_list::RoomyList;
use nextest_config_elements_choices::FlakyResult;
use nextest_run_events_outputs::{ExecuteStatus, OutputSpec};
use nextest_text::Listing;
use std::alloc::AllocError;
use std::marker::Model;
use thiserror::Error;

/// The attempts of a test in their order, at least one, and what becomes of the test if it passes
/// late. In a clause it is those, and for how many more attempts there is room.
#[derive(Drop)]
#[derive_where(Clone, Debug, PartialEq, Eq; S::ChildOutputDesc)]
pub struct ExecutionStatuses<S: OutputSpec> {
    statuses: RoomyList<ExecuteStatus<S>>,
    flaky_result: FlakyResult,
}

impl<S: OutputSpec> Model for ExecutionStatuses<S> {
    ghost use Rattle.std.specs.Prelude.{◌<◌, length};
    ghost use Rattle.nextest_run_events_counters.specs.Attempts.{Attempts};
    ghost use Rattle.nextest_run_events_outputs.specs.declared.execute_status.ExecuteStatus.{ExecuteStatus};

    ghost Value = { Attempts (ExecuteStatus S S.ChildOutputDesc) };

    ghost view = { λ it. record { statuses = it.statuses.items; flaky_result = it.flaky_result; room = it.statuses.room } };

    ghost inverse = { λ a. record { statuses = record { items = a.statuses; room = a.room }; flaky_result = a.flaky_result } };

    ghost invariant = { λ it. 0 < length it.statuses.items };
}

/// There are no attempts.
#[derive(Clone, Copy, Debug, PartialEq, Eq, Error)]
#[error("expected non-empty statuses")]
pub struct EmptyStatuses;

impl<S: OutputSpec> ExecutionStatuses<S> {
    /// These attempts, of which there is one at least.
    pub fn new(statuses: Listing<ExecuteStatus<S>>, flaky_result: FlakyResult) -> Self
        requires { 0 < length statuses }
        ensures statuses { result.statuses ≡ statuses }
        ensures flaky_result { result.flaky_result ≡ flaky_result }
    {
        ExecutionStatuses {
            statuses: RoomyList::from(statuses),
            flaky_result,
        }
    }

    /// These attempts, refused where there are none.
    pub fn from_parts(
        statuses: Listing<ExecuteStatus<S>>,
        flaky_result: FlakyResult,
    ) -> Result<Self, EmptyStatuses>
        ensures statuses { IfOk result (λ made. made.statuses ≡ statuses) }
        ensures flaky_result { IfOk result (λ made. made.flaky_result ≡ flaky_result) }
        ensures empty { IsErr result ↔ (statuses ≡ []) }
    {
        if statuses.is_empty() {
            return Err(EmptyStatuses);
        }
        Ok(ExecutionStatuses::new(statuses, flaky_result))
    }

    /// Makes room for one more attempt. It fails only on allocation, and then nothing changes.
    pub fn reserve_one(&mut self) -> Result<(), AllocError>
        ensures ok { OnOk result (0 < self.new.room) }
        ensures statuses { self.new.statuses ≡ self.old.statuses }
        ensures flaky_result { self.new.flaky_result ≡ self.old.flaky_result }
        ensures room { self.old.room ≤ self.new.room }
        ensures enough { 0 < self.old.room → IsOk result }
        ensures err { OnErr result (self.new ≡ self.old) }
    {
        self.statuses.reserve_one()
    }

    /// Adds an attempt at the end, for which there is room. It takes no memory.
    pub fn push_reserved(&mut self, status: ExecuteStatus<S>)
        requires { 0 < self.old.room }
        ensures statuses { self.new.statuses ≡ self.old.statuses ++ status ∷ [] }
        ensures flaky_result { self.new.flaky_result ≡ self.old.flaky_result }
        ensures room { self.old.room ≤ self.new.room + 1 }
    {
        self.statuses.push_reserved(status);
    }

    /// What becomes of the test if it passes late.
    pub fn flaky_result(&self) -> FlakyResult
        ensures { result ≡ self.now.flaky_result }
    {
        self.flaky_result
    }

    /// The last attempt.
    pub fn last_status(&self) -> &ExecuteStatus<S>
        ensures { last self.now.statuses ≡ Some result.now }
    {
        let statuses = self.as_slice();
        &statuses[statuses.len() - 1]
    }

    /// The attempts, lent.
    pub fn as_slice(&self) -> &[ExecuteStatus<S>]
        ensures statuses { result.now ≡ self.now.statuses }
        ensures not_empty { 0 < length result.now }
    {
        self.statuses.as_slice()
    }

    /// The attempts in their order.
    pub fn iter(&self) -> std::slice::Iter<'_, ExecuteStatus<S>>
        ensures { iter_rest result ≡ self.now.statuses }
    {
        self.as_slice().iter()
    }

    /// How many attempts there are.
    pub fn len(&self) -> usize
        ensures count { result ≡ length self.now.statuses }
        ensures not_empty { 0 < result }
    {
        self.as_slice().len()
    }

    /// What the attempts come to. The last one decides.
    pub fn describe(&self) -> ExecutionDescription<'_, S>
        ensures description { Some (description_in result)
            ≡ description_of self.now.statuses self.now.flaky_result }
        ensures success { HoldsSuccess (description_in result) }
    {
        let last_status = self.last_status();
        let statuses = self.as_slice();
        let retry_count = statuses.len() - 1;
        if !last_status.result.is_success() {
            ExecutionDescription::Failure {
                first_status: &statuses[0],
                last_status,
                retries: &statuses[1..],
            }
        } else if retry_count == 0 {
            ExecutionDescription::Success {
                single_status: last_status,
            }
        } else {
            ExecutionDescription::Flaky {
                last_status,
                prior_statuses: &statuses[..retry_count],
                result: self.flaky_result,
            }
        }
    }
}

impl<S: OutputSpec> IntoIterator for ExecutionStatuses<S> {
    ghost use Rattle.std.specs.Prelude.{◌≡◌};
    ghost use Rattle.std.specs.Vec.Iter.{into_iter_items};

    type Item = ExecuteStatus<S>;

    type IntoIter = std::vec::IntoIter<ExecuteStatus<S>>;

    ghost into_iter_gives = { λ attempts items. into_iter_items items ≡ attempts.statuses };

    fn into_iter(self) -> std::vec::IntoIter<ExecuteStatus<S>> {
        Vec::from(self.statuses).into_iter()
    }
}

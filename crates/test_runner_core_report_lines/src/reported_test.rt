// A test as a report shows it.
ghost use Rattle.std.specs.Prelude.{◌≡◌, length, nat_lt};
ghost use Rattle.nextest_run_events_results.specs.declared.result.ExecutionResultDescription.TheVariants.{Pass};
ghost use Rattle.test_runner_core_run_model.specs.State.{is_finished_mark};
ghost use Rattle.test_runner_core_report_lines.specs.Due.{due_of, finished_in};
ghost use Rattle.test_runner_core_report_lines.specs.Texts.{fate_of};

use crate::fate::ReportedFate;
use crate::finished_test::FinishedTest;
use crate::shows::Shows;
use nextest_run_events_results::{ExecutionResultDescription, TestInstanceId};
use nextest_run_events_visibility::OutputOnTestFinished;
use std::marker::Model;
use test_runner_core_run_model::{Mark, RunTest};
use test_runner_core_run_state::KeptRecord;

/// A test as a report shows it: its name, and how far it is. In a clause it is these two.
#[derive(Drop)]
pub struct ReportedTest<'a> {
    name: TestInstanceId<'a>,
    plan: RunTest,
    mark: Mark,
    records: &'a [KeptRecord],
}

impl<'a> Model for ReportedTest<'a> {
    ghost use Rattle.test_runner_core_report_lines.specs.Texts.{NamedTest};

    ghost Value = { NamedTest };

    ghost view = { λ t. record {
      name = record { binary_id = t.name.binary_id.now; test_name = t.name.test_name.now };
      state = record { plan = t.plan; records = t.records.now; mark = t.mark };
    } };
}

impl<'a> ReportedTest<'a> {
    /// The test of this name, how far it is, and the records of its ended attempts.
    pub fn new(
        name: TestInstanceId<'a>,
        plan: RunTest,
        mark: Mark,
        records: &'a [KeptRecord],
    ) -> ReportedTest<'a>
        ensures binary { result.name.binary_id ≡ name.entry.binary_id.now }
        ensures name { result.name.test_name ≡ name.entry.test_name.now }
        ensures state { result.state
            ≡ record { plan = plan; records = records.now; mark = mark } }
    {
        ReportedTest {
            name,
            plan,
            mark,
            records,
        }
    }

    /// The id of its binary.
    pub fn binary_id(&self) -> &'a str
        ensures { result.now ≡ self.now.name.binary_id }
    {
        self.name.binary_id
    }

    /// Its name.
    pub fn test_name(&self) -> &'a str
        ensures { result.now ≡ self.now.name.test_name }
    {
        self.name.test_name
    }

    /// How many attempts it has at most.
    pub fn tries(&self) -> u32
        ensures { result ≡ self.now.state.plan.tries }
    {
        self.plan.tries
    }

    /// How many of its attempts ended.
    pub fn ended(&self) -> usize
        ensures { result ≡ length self.now.state.records }
    {
        self.records.len()
    }

    /// The records of its ended attempts, in their order.
    pub fn records(&self) -> &'a [KeptRecord]
        ensures { result.now ≡ self.now.state.records }
    {
        self.records
    }

    /// What is due of it, where it is finished: by the reason under which it finished, whatever
    /// reason stands now.
    pub fn due(&self, shows: &Shows) -> Option<OutputOnTestFinished>
        ensures { result ≡ due_of shows.now self.now.state }
    {
        let last = self.records.last()?;
        let Mark::Finished(reason) = self.mark else {
            return None;
        };
        let pass = ExecutionResultDescription::Pass;
        let test = self.finished_by(result_in(last, &pass), last.slow());
        Some(shows.due_after(reason, test))
    }

    /// What became of it.
    pub fn fate(&self) -> ReportedFate
        ensures { result ≡ fate_of self.now.state }
    {
        let Some(last) = self.records.last() else {
            return ReportedFate::NotRun;
        };
        if !is_finished(self.mark) {
            return ReportedFate::Unfinished;
        }
        let pass = ExecutionResultDescription::Pass;
        self.finished_by(result_in(last, &pass), last.slow()).fate()
    }

    // The finished test whose last attempt ended with this result, slow or not.
    fn finished_by<'b>(
        &self,
        last_result: &'b ExecutionResultDescription,
        slow: bool,
    ) -> FinishedTest<'b>
        ensures { finished_in result ≡ record {
          result = last_result.now;
          slow = slow;
          late = nat_lt 1 (length self.now.state.records);
          flaky = self.now.state.plan.flaky;
        } }
    {
        FinishedTest {
            result: last_result,
            slow,
            late: self.records.len() > 1,
            flaky: self.plan.flaky,
        }
    }
}

// How an attempt ended: by its record, or by the pass that is handed in where the record is kept
// short.
fn result_in<'b>(
    ended: &'b KeptRecord,
    pass: &'b ExecutionResultDescription,
) -> &'b ExecutionResultDescription
    requires { pass.now ≡ Pass }
    ensures { result.now ≡ ended.now.result }
{
    match ended.whole() {
        Some(whole) => &whole.result,
        None => pass,
    }
}

// Whether a test is over.
fn is_finished(mark: Mark) -> bool
    ensures { result ≡ is_finished_mark mark }
{
    match mark {
        Mark::Finished(_) => true,
        Mark::Waiting | Mark::Running | Mark::Between => false,
    }
}

//! What holds of every run of a log. Each function does nothing, and its contract is the law. The
//! laws over runs hold of the run of each plan that is built (`built_plan`).
ghost use Rattle.test_runner_core.specs.Laws.{BuiltIsPlan, EndsNoMilder, EndsWithDueStatus, EndsWithOneText, EndsWithSomeText, HasOneReport, IsolatesReports, StopsWhereDue, SucceedsWhole, NothingTakenBack, WrittenFirst};
ghost use Rattle.test_runner_core.specs.SomeLog.{EndsSomeLog, RunsSomeLog};
ghost use Rattle.test_runner_core_planning.specs.Laws.{IsolatesPlans};

pub use test_runner_core_planning::laws::{
    decided, default_twice, listed, not_planned_and_refused, one_plan, roads, selected,
    selected_once, settled,
};
pub use test_runner_core_run_model::laws::{
    after_a_reason, assigned_end, limit_stop, no_dead_end, reasons_first, weights_of_one,
};

/// Whatever the lister answers, inputs and a log have one report at most: one text and one exit
/// status.
pub fn one_text()
    ensures { EndsWithOneText }
{}

/// It can't be that inputs and a log have no report, whatever the lister answers.
pub fn some_report()
    ensures { EndsWithSomeText }
{}

/// What is written of a report that was begun, wherever it breaks off, is a prefix of the whole
/// report of the same inputs and log: nothing that is written early is ever taken back.
pub fn nothing_taken_back()
    ensures { NothingTakenBack }
{}

/// Whatever a call answers, and wherever it failed, what it wrote is a prefix of the whole report
/// of its inputs and its log.
pub fn written_first()
    ensures { WrittenFirst }
{}

/// Whatever the inputs: where no line of a log is refused, the log agrees with an assignment and
/// has no stop, and the run is complete, the exit status of the report is that assignment's due
/// status.
pub fn due_status()
    ensures { EndsWithDueStatus }
{}

/// Whatever the inputs: where no line of a log is refused and the log agrees with an assignment,
/// cut after any line and with stops anywhere, the exit status of the report is that assignment's
/// due status or a graver one, and 4 exactly where 4 is due.
pub fn cut_or_stopped()
    ensures { EndsNoMilder }
{}

/// The tests of a run may come in any order: for an assignment of which no script stops the run and
/// whose failing tests weigh less than the limit, all logs that run the inputs to their end have
/// reports that end with the same final text, byte for byte. Whatever the assignment, a reason
/// stands at the end of such a log exactly where the assignment isn't such a one.
pub fn one_report()
    ensures final_text { HasOneReport }
    ensures reason { StopsWhereDue }
{}

/// A report with status 0 has no refused line, and all planned scripts and all selected tests
/// finished.
pub fn status_zero()
    ensures { SucceedsWhole }
{}

/// A plan that was built is a plan of the laws over runs, so these hold of each session of it.
pub fn built_plan()
    ensures { BuiltIsPlan }
{}

/// There are logs that run a plan to its end. Whatever is assigned to a plan whose script ids and
/// test names don't repeat, some lines do, if the start of each of its tests and the assigned end
/// of each script and of each try has a line that isn't too long: each of the lines is an event and
/// none is refused, the run agrees with the assignment, it is complete, and nobody tells it to
/// stop. If together they aren't longer than a log may be, their bytes are a log that is read as
/// exactly these lines. A plan that was built repeats nothing, so its inputs have such lines too.
pub fn some_log()
    ensures log { EndsSomeLog }
    ensures run { RunsSomeLog }
{}

/// Profiles outside of the chosen one's chain change nothing: where two inputs ask for the same
/// tests of one workspace, choose one profile, for the same platforms, and their files agree but in
/// profiles other than the chosen one, its parents and `default`, and both have a plan, then it is
/// one plan, and a log has one exit status and one report, warnings aside.
pub fn isolation()
    ensures plan { IsolatesPlans }
    ensures report { IsolatesReports }
{}

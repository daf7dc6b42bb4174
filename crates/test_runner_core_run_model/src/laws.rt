//! What holds of all runs, and of the first success among tries. Each function does nothing, and
//! its contract is the law.
ghost use Rattle.test_runner_core_run_model.specs.Laws.{EndsWithDueStatus, AgreesWhereCut, EndsNoMilder, HasFourExactlyWhereDue, RefusesScripts, RefusesStarts, KeepsAReason, SucceedsWhole, EndsInOneState, ReachesTheOneState, StopsWhereDue, HasNext, HasAtMost, ReachesAnEnd, ReachesAnAssignedEnd, HasReasonsFirst, FindsFirstSuccess, HasOneFirstSuccess, StaysBelowLimit, StopsExactlyAtLimit, WeighsItsNumber, WeighsItsFailures};
ghost use Rattle.test_runner_core_run_model.specs.WorkedRows.{WorkedRows};

/// Any complete run that agrees with an assignment and holds no stop event ends with that
/// assignment's due status, for every plan and limit and in every order, scripts included.
pub fn due_status()
    ensures { EndsWithDueStatus }
{}

/// Any run that agrees with an assignment, cut wherever it is and whoever told it to stop, has that
/// assignment's due status or a graver one (100 is graver than 0, 105 than both). It has 4 exactly
/// where 4 is due. A run that agrees does so wherever it is cut.
pub fn no_milder()
    ensures cut { AgreesWhereCut }
    ensures no_milder { EndsNoMilder }
    ensures selected_nothing { HasFourExactlyWhereDue }
{}

/// Once a run is stopped no script ends and no attempt starts: such an event is refused since the
/// run is stopped, or as unknown where the plan has no such script or test. A reason that stands is
/// never lost, nor followed by a milder one.
pub fn after_a_reason()
    ensures no_script { RefusesScripts }
    ensures no_start { RefusesStarts }
    ensures kept { KeepsAReason }
{}

/// Any run that has status 0, by whatever log, ended all scripts of its plan and finished all of
/// its tests.
pub fn status_zero()
    ensures { SucceedsWhole }
{}

/// Any complete run that agrees with an assignment of which no script stops the run and whose
/// failing tests weigh less than the limit, and that holds no stop event, ends in one state, in
/// whatever order its events came. There is such a run.
pub fn one_end()
    ensures one { EndsInOneState }
    ensures reached { ReachesTheOneState }
{}

/// A complete run that agrees with an assignment and holds no stop event is stopped exactly where a
/// script of the assignment stops it or the tests that fail by the assignment weigh as much as the
/// limit, in whatever order its events came.
pub fn reason_where_stopped()
    ensures { StopsWhereDue }
{}

/// No run gets stuck: one that agrees with an assignment and isn't complete has a next event other
/// than a stop, after which it still agrees. A run has no more events other than stops than one for
/// each script and two for each try. So every run that agrees can be brought to an end.
pub fn no_dead_end()
    ensures next { HasNext }
    ensures at_most { HasAtMost }
    ensures end { ReachesAnEnd }
{}

/// Whatever is assigned, there is a complete run that agrees with it and that nobody tells to stop,
/// each event of which is one of the plan's, as it is assigned.
pub fn assigned_end()
    ensures { ReachesAnAssignedEnd }
{}

/// In a run from its beginning no test is over under a reason before a reason stands. That is the
/// premise under which what a step answers (`Finished`) says which tests it finishes: so it does in
/// each run.
pub fn reasons_first()
    ensures { HasReasonsFirst }
{}

/// The limit stops a run exactly at the first end of an attempt after which what failed weighs as
/// much as the limit, in a run that isn't stopped yet: no other event lets the limit's reason come
/// up, and as long as no reason stands, what failed weighs less.
pub fn limit_stop()
    ensures below { StaysBelowLimit }
    ensures exactly { StopsExactlyAtLimit }
{}

/// Where each test weighs 1, weights are numbers: in each state of a run, what failed weighs as
/// much as the number of tests that failed, and by each assignment what fails weighs as much as the
/// number of tests that fail.
pub fn weights_of_one()
    ensures state { WeighsItsNumber }
    ensures assignment { WeighsItsFailures }
{}

/// The first success among the attempts of a test is the one of which none before it is a success:
/// `first_success` answers its number, or `None` exactly where no attempt from 1 to the number of
/// tries is a success. Nothing else is that number.
pub fn first_success()
    ensures finds { FindsFirstSuccess }
    ensures one { HasOneFirstSuccess }
{}

/// Worked rows, whose ends were found by hand: the definitions of step, counters, summary and
/// status give them.
pub fn worked_rows()
    ensures { WorkedRows }
{}

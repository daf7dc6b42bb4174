// What happened in a run.
use crate::copies::{
    copied_attempt, copied_attempts, copied_command, copied_script_run, copied_start,
    copied_tests_not_seen, copied_texts,
};
use crate::info::InfoResponse;
use crate::slot_assignment::TestSlotAssignment;
use nextest_config_elements_choices::TestOutputDisplay;
use nextest_config_elements_values::{JunitFlakyFailStatus, MismatchReason, ReportSkipPolicy};
use nextest_config_resolution_commands::ScriptId;
use nextest_run_events_counters::{ExecutionStatuses, RunStats};
use nextest_run_events_outcomes::{
    RunFinishedStats, StressCondition, StressIndex, StressProgress, TestList, TestsNotSeen,
};
use nextest_run_events_outputs::{
    EventTime, ExecuteStatus, LiveSpec, RetryData, SetupScriptExecuteStatus,
};
use nextest_run_events_results::TestInstanceId;
use nextest_text::{Listing, Text};
use std::alloc::AllocError;
use std::time::Duration;
use uuid::Uuid;

/// What happened in a run.
#[derive(Debug)]
pub enum TestEventKind<'a> {
    /// The run began.
    RunStarted {
        /// The tests that are to run.
        test_list: &'a TestList,
        /// The run's id.
        run_id: Uuid,
        /// The name of the profile that it goes by.
        profile_name: Text,
        /// The words that the runner was called with.
        cli_args: Listing<Text>,
        /// When it ends, if it is a stress run.
        stress_condition: Option<StressCondition>,
    },
    /// A sub-run of a stress run began.
    StressSubRunStarted {
        /// How far the stress run is.
        progress: StressProgress,
    },
    /// A sub-run of a stress run ended.
    StressSubRunFinished {
        /// How far the stress run is.
        progress: StressProgress,
        /// How long the sub-run took.
        sub_elapsed: Duration,
        /// What was counted in the sub-run.
        sub_stats: RunStats,
    },
    /// A setup script began.
    SetupScriptStarted {
        /// Which sub-run it belongs to, if the run is a stress run.
        stress_index: Option<StressIndex>,
        /// The script's place among the scripts of the run, from 0.
        index: usize,
        /// How many scripts the run has.
        total: usize,
        /// The script's name.
        script_id: ScriptId,
        /// The program that it runs.
        program: Text,
        /// What the program is called with.
        args: Listing<Text>,
        /// Whether some of its output isn't captured, but passed on.
        no_capture: bool,
    },
    /// A setup script takes long.
    SetupScriptSlow {
        /// Which sub-run it belongs to, if the run is a stress run.
        stress_index: Option<StressIndex>,
        /// The script's name.
        script_id: ScriptId,
        /// The program that it runs.
        program: Text,
        /// What the program is called with.
        args: Listing<Text>,
        /// How long it has run.
        elapsed: Duration,
        /// Whether it is about to be ended for that.
        will_terminate: bool,
    },
    /// A setup script ended.
    SetupScriptFinished {
        /// Which sub-run it belongs to, if the run is a stress run.
        stress_index: Option<StressIndex>,
        /// The script's place among the scripts of the run, from 0.
        index: usize,
        /// How many scripts the run has.
        total: usize,
        /// The script's name.
        script_id: ScriptId,
        /// The program that it runs.
        program: Text,
        /// What the program is called with.
        args: Listing<Text>,
        /// Whether the report in JUnit's form has its outputs where it passed.
        junit_store_success_output: bool,
        /// Whether that report has its outputs where it failed.
        junit_store_failure_output: bool,
        /// Whether some of its output wasn't captured, but passed on.
        no_capture: bool,
        /// What came of it.
        run_status: SetupScriptExecuteStatus<LiveSpec>,
    },
    /// The first attempt of a test began.
    TestStarted {
        /// Which sub-run it belongs to, if the run is a stress run.
        stress_index: Option<StressIndex>,
        /// Which test it is.
        test_instance: TestInstanceId<'a>,
        /// Where it runs.
        slot_assignment: TestSlotAssignment,
        /// What was counted so far.
        current_stats: RunStats,
        /// How many tests run, this one among them.
        running: usize,
        /// The words of the command that runs it.
        command_line: Listing<Text>,
    },
    /// A test takes long.
    TestSlow {
        /// Which sub-run it belongs to, if the run is a stress run.
        stress_index: Option<StressIndex>,
        /// Which test it is.
        test_instance: TestInstanceId<'a>,
        /// Which of its attempts runs.
        retry_data: RetryData,
        /// How long it has run.
        elapsed: Duration,
        /// Whether it is about to be ended for that.
        will_terminate: bool,
    },
    /// A further attempt of a test began.
    TestRetryStarted {
        /// Which sub-run it belongs to, if the run is a stress run.
        stress_index: Option<StressIndex>,
        /// Which test it is.
        test_instance: TestInstanceId<'a>,
        /// Where it runs: as told when the test started.
        slot_assignment: TestSlotAssignment,
        /// Which of its attempts began.
        retry_data: RetryData,
        /// How many tests run.
        running: usize,
        /// The words of the command that runs it.
        command_line: Listing<Text>,
    },
    /// An attempt of a test failed, and another one follows.
    TestAttemptFailedWillRetry {
        /// Which sub-run it belongs to, if the run is a stress run.
        stress_index: Option<StressIndex>,
        /// Which test it is.
        test_instance: TestInstanceId<'a>,
        /// The attempt that failed.
        run_status: ExecuteStatus<LiveSpec>,
        /// How long is waited before the next one.
        delay_before_next_attempt: Duration,
        /// When the output of what failed is shown.
        failure_output: TestOutputDisplay,
        /// How many tests run.
        running: usize,
    },
    /// A test ended.
    TestFinished {
        /// Which sub-run it belongs to, if the run is a stress run.
        stress_index: Option<StressIndex>,
        /// Which test it is.
        test_instance: TestInstanceId<'a>,
        /// When its output is shown where it passed.
        success_output: TestOutputDisplay,
        /// When its output is shown where it failed.
        failure_output: TestOutputDisplay,
        /// Whether the report in JUnit's form has its outputs where it passed.
        junit_store_success_output: bool,
        /// Whether that report has its outputs where it failed.
        junit_store_failure_output: bool,
        /// How it stands there where it failed since it is flaky.
        junit_flaky_fail_status: JunitFlakyFailStatus,
        /// Its attempts.
        run_statuses: ExecutionStatuses<LiveSpec>,
        /// What was counted so far.
        current_stats: RunStats,
        /// How many tests still run.
        running: usize,
    },
    /// A test was skipped.
    TestSkipped {
        /// Which sub-run it belongs to, if the run is a stress run.
        stress_index: Option<StressIndex>,
        /// Which test it is.
        test_instance: TestInstanceId<'a>,
        /// Why.
        reason: MismatchReason,
        /// Which skipped tests the report in JUnit's form has.
        junit_report_skipped: ReportSkipPolicy,
    },
    /// Someone asked what runs.
    InfoStarted {
        /// How many units run, each of which is to answer.
        total: usize,
        /// What was counted so far.
        run_stats: RunStats,
    },
    /// A unit that runs answered.
    InfoResponse {
        /// The answer's place among the answers, from 0.
        index: usize,
        /// How many answers are expected.
        total: usize,
        /// The answer.
        response: InfoResponse<'a>,
    },
    /// No more answers are awaited.
    InfoFinished {
        /// How many of those expected didn't come.
        missing: usize,
    },
    /// The enter key was pressed.
    InputEnter {
        /// What was counted so far.
        current_stats: RunStats,
        /// How many tests run.
        running: usize,
    },
    /// The run is about to be cut short.
    RunBeginCancel {
        /// How many setup scripts still run.
        setup_scripts_running: usize,
        /// What was counted so far, with the reason.
        current_stats: RunStats,
        /// How many tests still run.
        running: usize,
    },
    /// What still runs is about to be killed.
    RunBeginKill {
        /// How many setup scripts still run.
        setup_scripts_running: usize,
        /// What was counted so far, with the reason.
        current_stats: RunStats,
        /// How many tests still run.
        running: usize,
    },
    /// The run was halted for a while.
    RunPaused {
        /// How many setup scripts were running.
        setup_scripts_running: usize,
        /// How many tests were running.
        running: usize,
    },
    /// A halted run goes on.
    RunContinued {
        /// How many setup scripts go on.
        setup_scripts_running: usize,
        /// How many tests go on.
        running: usize,
    },
    /// The run ended.
    RunFinished {
        /// The run's id.
        run_id: Uuid,
        /// When it began.
        start_time: EventTime,
        /// How long it took.
        elapsed: Duration,
        /// What was counted in it, or in the sub-runs of a stress run.
        run_stats: RunFinishedStats,
        /// Tests that it was to make up for and never saw, if there are any.
        outstanding_not_seen: Option<TestsNotSeen>,
    },
}

// One call drops it, whoever holds it.
impl Drop for TestEventKind<'_> {
    fn drop(self) {
        match self {
            Self::RunStarted {
                test_list: _,
                run_id: _,
                profile_name: _,
                cli_args: _,
                stress_condition: _,
            } => {}
            Self::StressSubRunStarted { progress: _ } => {}
            Self::StressSubRunFinished {
                progress: _,
                sub_elapsed: _,
                sub_stats: _,
            } => {}
            Self::SetupScriptStarted {
                stress_index: _,
                index: _,
                total: _,
                script_id: _,
                program: _,
                args: _,
                no_capture: _,
            } => {}
            Self::SetupScriptSlow {
                stress_index: _,
                script_id: _,
                program: _,
                args: _,
                elapsed: _,
                will_terminate: _,
            } => {}
            Self::SetupScriptFinished {
                stress_index: _,
                index: _,
                total: _,
                script_id: _,
                program: _,
                args: _,
                junit_store_success_output: _,
                junit_store_failure_output: _,
                no_capture: _,
                run_status: _,
            } => {}
            Self::TestStarted {
                stress_index: _,
                test_instance: _,
                slot_assignment: _,
                current_stats: _,
                running: _,
                command_line: _,
            } => {}
            Self::TestSlow {
                stress_index: _,
                test_instance: _,
                retry_data: _,
                elapsed: _,
                will_terminate: _,
            } => {}
            Self::TestRetryStarted {
                stress_index: _,
                test_instance: _,
                slot_assignment: _,
                retry_data: _,
                running: _,
                command_line: _,
            } => {}
            Self::TestAttemptFailedWillRetry {
                stress_index: _,
                test_instance: _,
                run_status: _,
                delay_before_next_attempt: _,
                failure_output: _,
                running: _,
            } => {}
            Self::TestFinished {
                stress_index: _,
                test_instance: _,
                success_output: _,
                failure_output: _,
                junit_store_success_output: _,
                junit_store_failure_output: _,
                junit_flaky_fail_status: _,
                run_statuses: _,
                current_stats: _,
                running: _,
            } => {}
            Self::TestSkipped {
                stress_index: _,
                test_instance: _,
                reason: _,
                junit_report_skipped: _,
            } => {}
            Self::InfoStarted {
                total: _,
                run_stats: _,
            } => {}
            Self::InfoResponse {
                index: _,
                total: _,
                response: _,
            } => {}
            Self::InfoFinished { missing: _ } => {}
            Self::InputEnter {
                current_stats: _,
                running: _,
            } => {}
            Self::RunBeginCancel {
                setup_scripts_running: _,
                current_stats: _,
                running: _,
            } => {}
            Self::RunBeginKill {
                setup_scripts_running: _,
                current_stats: _,
                running: _,
            } => {}
            Self::RunPaused {
                setup_scripts_running: _,
                running: _,
            } => {}
            Self::RunContinued {
                setup_scripts_running: _,
                running: _,
            } => {}
            Self::RunFinished {
                run_id: _,
                start_time: _,
                elapsed: _,
                run_stats: _,
                outstanding_not_seen: _,
            } => {}
        }
    }
}

// The copy equals the event, but for the room of a test's attempts, and for how a script's
// variables lie in memory.
impl Clone for TestEventKind<'_> {
    ghost use Rattle.nextest_run_events_reporting.specs.Kinds.{IsEventCopy};

    ghost is_clone = { IsEventCopy };

    fn clone(&self) -> Result<Self, AllocError> {
        match self {
            Self::RunStarted {
                test_list,
                run_id,
                profile_name,
                cli_args,
                stress_condition,
            } => {
                let (profile_name, cli_args) = copied_texts(profile_name, cli_args)?;
                Ok(Self::RunStarted {
                    test_list: *test_list,
                    run_id: *run_id,
                    profile_name,
                    cli_args,
                    stress_condition: *stress_condition,
                })
            }
            Self::StressSubRunStarted { progress } => {
                Ok(Self::StressSubRunStarted {
                    progress: *progress,
                })
            }
            Self::StressSubRunFinished {
                progress,
                sub_elapsed,
                sub_stats,
            } => {
                Ok(Self::StressSubRunFinished {
                    progress: *progress,
                    sub_elapsed: *sub_elapsed,
                    sub_stats: *sub_stats,
                })
            }
            Self::SetupScriptStarted {
                stress_index,
                index,
                total,
                script_id,
                program,
                args,
                no_capture,
            } => {
                let (script_id, program, args) = copied_command(script_id, program, args)?;
                Ok(Self::SetupScriptStarted {
                    stress_index: *stress_index,
                    index: *index,
                    total: *total,
                    script_id,
                    program,
                    args,
                    no_capture: *no_capture,
                })
            }
            Self::SetupScriptSlow {
                stress_index,
                script_id,
                program,
                args,
                elapsed,
                will_terminate,
            } => {
                let (script_id, program, args) = copied_command(script_id, program, args)?;
                Ok(Self::SetupScriptSlow {
                    stress_index: *stress_index,
                    script_id,
                    program,
                    args,
                    elapsed: *elapsed,
                    will_terminate: *will_terminate,
                })
            }
            Self::SetupScriptFinished {
                stress_index,
                index,
                total,
                script_id,
                program,
                args,
                junit_store_success_output,
                junit_store_failure_output,
                no_capture,
                run_status,
            } => {
                let run_status = copied_script_run(run_status)?;
                let (script_id, program, args) = copied_command(script_id, program, args)?;
                Ok(Self::SetupScriptFinished {
                    stress_index: *stress_index,
                    index: *index,
                    total: *total,
                    script_id,
                    program,
                    args,
                    junit_store_success_output: *junit_store_success_output,
                    junit_store_failure_output: *junit_store_failure_output,
                    no_capture: *no_capture,
                    run_status,
                })
            }
            Self::TestStarted {
                stress_index,
                test_instance,
                slot_assignment,
                current_stats,
                running,
                command_line,
            } => {
                let (slot_assignment, command_line) = copied_start(slot_assignment, command_line)?;
                Ok(Self::TestStarted {
                    stress_index: *stress_index,
                    test_instance: *test_instance,
                    slot_assignment,
                    current_stats: *current_stats,
                    running: *running,
                    command_line,
                })
            }
            Self::TestSlow {
                stress_index,
                test_instance,
                retry_data,
                elapsed,
                will_terminate,
            } => {
                Ok(Self::TestSlow {
                    stress_index: *stress_index,
                    test_instance: *test_instance,
                    retry_data: *retry_data,
                    elapsed: *elapsed,
                    will_terminate: *will_terminate,
                })
            }
            Self::TestRetryStarted {
                stress_index,
                test_instance,
                slot_assignment,
                retry_data,
                running,
                command_line,
            } => {
                let (slot_assignment, command_line) = copied_start(slot_assignment, command_line)?;
                Ok(Self::TestRetryStarted {
                    stress_index: *stress_index,
                    test_instance: *test_instance,
                    slot_assignment,
                    retry_data: *retry_data,
                    running: *running,
                    command_line,
                })
            }
            Self::TestAttemptFailedWillRetry {
                stress_index,
                test_instance,
                run_status,
                delay_before_next_attempt,
                failure_output,
                running,
            } => {
                let run_status = copied_attempt(run_status)?;
                Ok(Self::TestAttemptFailedWillRetry {
                    stress_index: *stress_index,
                    test_instance: *test_instance,
                    run_status,
                    delay_before_next_attempt: *delay_before_next_attempt,
                    failure_output: *failure_output,
                    running: *running,
                })
            }
            Self::TestFinished {
                stress_index,
                test_instance,
                success_output,
                failure_output,
                junit_store_success_output,
                junit_store_failure_output,
                junit_flaky_fail_status,
                run_statuses,
                current_stats,
                running,
            } => {
                let run_statuses = copied_attempts(run_statuses)?;
                Ok(Self::TestFinished {
                    stress_index: *stress_index,
                    test_instance: *test_instance,
                    success_output: *success_output,
                    failure_output: *failure_output,
                    junit_store_success_output: *junit_store_success_output,
                    junit_store_failure_output: *junit_store_failure_output,
                    junit_flaky_fail_status: *junit_flaky_fail_status,
                    run_statuses,
                    current_stats: *current_stats,
                    running: *running,
                })
            }
            Self::TestSkipped {
                stress_index,
                test_instance,
                reason,
                junit_report_skipped,
            } => {
                Ok(Self::TestSkipped {
                    stress_index: *stress_index,
                    test_instance: *test_instance,
                    reason: *reason,
                    junit_report_skipped: *junit_report_skipped,
                })
            }
            Self::InfoStarted { total, run_stats } => {
                Ok(Self::InfoStarted {
                    total: *total,
                    run_stats: *run_stats,
                })
            }
            Self::InfoResponse {
                index,
                total,
                response,
            } => {
                let response = response.clone()?;
                Ok(Self::InfoResponse {
                    index: *index,
                    total: *total,
                    response,
                })
            }
            Self::InfoFinished { missing } => { Ok(Self::InfoFinished { missing: *missing }) }
            Self::InputEnter {
                current_stats,
                running,
            } => {
                Ok(Self::InputEnter {
                    current_stats: *current_stats,
                    running: *running,
                })
            }
            Self::RunBeginCancel {
                setup_scripts_running,
                current_stats,
                running,
            } => {
                Ok(Self::RunBeginCancel {
                    setup_scripts_running: *setup_scripts_running,
                    current_stats: *current_stats,
                    running: *running,
                })
            }
            Self::RunBeginKill {
                setup_scripts_running,
                current_stats,
                running,
            } => {
                Ok(Self::RunBeginKill {
                    setup_scripts_running: *setup_scripts_running,
                    current_stats: *current_stats,
                    running: *running,
                })
            }
            Self::RunPaused {
                setup_scripts_running,
                running,
            } => {
                Ok(Self::RunPaused {
                    setup_scripts_running: *setup_scripts_running,
                    running: *running,
                })
            }
            Self::RunContinued {
                setup_scripts_running,
                running,
            } => {
                Ok(Self::RunContinued {
                    setup_scripts_running: *setup_scripts_running,
                    running: *running,
                })
            }
            Self::RunFinished {
                run_id,
                start_time,
                elapsed,
                run_stats,
                outstanding_not_seen,
            } => {
                let outstanding_not_seen = copied_tests_not_seen(outstanding_not_seen)?;
                Ok(Self::RunFinished {
                    run_id: *run_id,
                    start_time: *start_time,
                    elapsed: *elapsed,
                    run_stats: *run_stats,
                    outstanding_not_seen,
                })
            }
        }
    }
}

// Events of each kind that has memory of its own, and copies of them.
use crate::ends::described_end;
use crate::outputs::left_by_test;
use crate::page::Page;
use crate::parts::{Word, list_of};
use crate::{ok, some};
use nextest_config_elements::{FlakyResult, JunitFlakyFailStatus, TestGroup, TestOutputDisplay};
use nextest_config_resolution::ScriptId;
use nextest_run_events::{
    Boxed, ErrorSummary, EventTime, ExecuteStatus, ExecutionStatuses, InfoResponse, LiveSpec,
    OutputErrorSlice, OwnedTestInstanceId, ReporterEvent, RetryData, RunFinishedStats, RunStats,
    SetupScriptEnvMap, SetupScriptExecuteStatus, SetupScriptInfoResponse, TestEvent, TestEventKind,
    TestInfoResponse, TestInstanceId, TestList, TestSlotAssignment, TestsNotSeen, UnitState,
    UnitTerminateMethod, UnitTerminateReason, UnitTerminateSignal, UnitTerminatingState,
};
use nextest_text::{Listing, Text};
use std::alloc::Global;
use std::collections::BTreeMap;
use std::fmt::Debug;
use std::time::Duration;
use uuid::Uuid;

// The test that all of them are of, and its attempt.
const TEST: TestInstanceId<'static> = TestInstanceId {
    binary_id: "p",
    test_name: "a",
};

const FIRST_TRY: RetryData = RetryData {
    attempt: 1,
    total_attempts: 2,
};

const NOON: EventTime = EventTime {
    unix_nanos: 43_200_000_000_000,
    offset_minutes: 60,
};

// A kind of event, or `tests` for the list of a run's tests: whether a copy of it prints as it does
// itself.
pub(crate) fn events(page: &mut Page, input: &str) -> Option<()> {
    let tests = TestList {
        tests: some!(tests(page.alloc)),
    };
    if input == "tests" {
        return copied(page, &tests);
    }
    let kind = some!(of_run(page.alloc, input, &tests));
    let event = ok!(Boxed::new(
        page.alloc,
        TestEvent {
            timestamp: NOON,
            elapsed: Duration::ZERO,
            kind,
        }
    ));
    copied(page, &ReporterEvent::Test(event))
}

fn copied<T: Clone + Debug>(page: &mut Page, value: &T) -> Option<()> {
    let (mut own, mut copy) = (Page::new(page.alloc), Page::new(page.alloc));
    own.debug(value);
    copy.debug_copy(value);
    page.show(some!(own.finish()) == some!(copy.finish()));
    Some(())
}

fn tests(alloc: Global) -> Option<Listing<OwnedTestInstanceId>> {
    Some(Listing::from(some!(list_of::<OwnedTestInstanceId>(alloc, "p/a", ","))))
}

fn of_run<'a>(alloc: Global, kind: &str, test_list: &'a TestList) -> Option<TestEventKind<'a>> {
    match kind {
        "RunStarted" => Some(TestEventKind::RunStarted {
            test_list,
            run_id: Uuid::nil(),
            profile_name: ok!(Text::from_str(alloc, "default")),
            cli_args: some!(Listing::of_word(alloc, "nextest,run")),
            stress_condition: None,
        }),
        "RunFinished" => Some(TestEventKind::RunFinished {
            run_id: Uuid::nil(),
            start_time: NOON,
            elapsed: Duration::ZERO,
            run_stats: RunFinishedStats::Single(RunStats::default()),
            outstanding_not_seen: Some(TestsNotSeen {
                not_seen: some!(tests(alloc)),
                total_not_seen: 1,
            }),
        }),
        "InfoResponse of a script" => response(InfoResponse::SetupScript(some!(of_script_info(
            alloc
        )))),
        "InfoResponse of a test" => response(InfoResponse::Test(some!(of_test_info(alloc)))),
        _ => of_tests(alloc, kind),
    }
}

fn response(response: InfoResponse<'_>) -> Option<TestEventKind<'_>> {
    Some(TestEventKind::InfoResponse {
        index: 0,
        total: 1,
        response,
    })
}

fn of_tests<'a>(alloc: Global, kind: &str) -> Option<TestEventKind<'a>> {
    let current_stats = RunStats::default();
    match kind {
        "TestStarted" => Some(TestEventKind::TestStarted {
            stress_index: None,
            test_instance: TEST,
            slot_assignment: some!(slot(alloc)),
            current_stats,
            running: 1,
            command_line: some!(Listing::of_word(alloc, "p,a")),
        }),
        "TestRetryStarted" => Some(TestEventKind::TestRetryStarted {
            stress_index: None,
            test_instance: TEST,
            slot_assignment: some!(slot(alloc)),
            retry_data: FIRST_TRY,
            running: 1,
            command_line: some!(Listing::of_word(alloc, "p,a")),
        }),
        "TestAttemptFailedWillRetry" => Some(TestEventKind::TestAttemptFailedWillRetry {
            stress_index: None,
            test_instance: TEST,
            run_status: some!(attempt(alloc)),
            delay_before_next_attempt: Duration::ZERO,
            failure_output: TestOutputDisplay::Immediate,
            running: 0,
        }),
        "TestFinished" => Some(TestEventKind::TestFinished {
            stress_index: None,
            test_instance: TEST,
            success_output: TestOutputDisplay::Never,
            failure_output: TestOutputDisplay::Immediate,
            junit_store_success_output: false,
            junit_store_failure_output: true,
            junit_flaky_fail_status: JunitFlakyFailStatus::default(),
            run_statuses: some!(attempts(alloc)),
            current_stats,
            running: 0,
        }),
        _ => of_scripts(alloc, kind),
    }
}

fn of_scripts<'a>(alloc: Global, kind: &str) -> Option<TestEventKind<'a>> {
    let (script_id, program, args) = some!(command(alloc));
    match kind {
        "SetupScriptStarted" => Some(TestEventKind::SetupScriptStarted {
            stress_index: None,
            index: 0,
            total: 1,
            script_id,
            program,
            args,
            no_capture: false,
        }),
        "SetupScriptSlow" => Some(TestEventKind::SetupScriptSlow {
            stress_index: None,
            script_id,
            program,
            args,
            elapsed: Duration::ZERO,
            will_terminate: false,
        }),
        "SetupScriptFinished" => Some(TestEventKind::SetupScriptFinished {
            stress_index: None,
            index: 0,
            total: 1,
            script_id,
            program,
            args,
            junit_store_success_output: false,
            junit_store_failure_output: true,
            no_capture: false,
            run_status: some!(script_run(alloc)),
        }),
        _ => None,
    }
}

fn slot(alloc: Global) -> Option<TestSlotAssignment> {
    Some(TestSlotAssignment {
        global_slot: 1,
        group_slot: Some(0),
        test_group: ok!(TestGroup::from_text(alloc, "g")),
    })
}

// What is run as a setup script.
fn command(alloc: Global) -> Option<(ScriptId, Text, Listing<Text>)> {
    Some((
        ok!(ScriptId::new(alloc, "s")),
        ok!(Text::from_str(alloc, "x")),
        some!(Listing::of_word(alloc, "y,z")),
    ))
}

fn summary(alloc: Global) -> Option<Boxed<ErrorSummary>> {
    let summary = ErrorSummary {
        short_message: ok!(Text::from_str(alloc, "e")),
        description: ok!(Text::from_str(alloc, "e: f")),
    };
    Boxed::new(alloc, summary).ok()
}

fn slice(alloc: Global) -> Option<Boxed<OutputErrorSlice>> {
    let slice = OutputErrorSlice {
        slice: ok!(Text::from_str(alloc, "Error: e")),
        start: 2,
    };
    Boxed::new(alloc, slice).ok()
}

fn attempt(alloc: Global) -> Option<ExecuteStatus<LiveSpec>> {
    Some(ExecuteStatus {
        start_time: Some(NOON),
        retry_data: FIRST_TRY,
        output: some!(left_by_test(alloc)),
        result: some!(described_end(alloc, "signal 6")),
        time_taken: Duration::ZERO,
        is_slow: false,
        delay_before_start: Duration::ZERO,
        error_summary: Some(some!(summary(alloc))),
        output_error_slice: Some(some!(slice(alloc))),
    })
}

fn attempts(alloc: Global) -> Option<ExecutionStatuses<LiveSpec>> {
    let mut attempts = Listing::new(alloc);
    ok!(attempts.push(some!(attempt(alloc))));
    ExecutionStatuses::from_parts(attempts, FlakyResult::Pass).ok()
}

fn script_run(alloc: Global) -> Option<SetupScriptExecuteStatus<LiveSpec>> {
    let mut env_map = BTreeMap::new(alloc);
    ok!(env_map.insert(
        ok!(Text::from_str(alloc, "A")),
        ok!(Text::from_str(alloc, "b"))
    ));
    Some(SetupScriptExecuteStatus {
        output: some!(left_by_test(alloc)),
        result: some!(described_end(alloc, "code 1")),
        start_time: Some(NOON),
        time_taken: Duration::ZERO,
        is_slow: false,
        env_map: Some(SetupScriptEnvMap { env_map }),
        error_summary: Some(some!(summary(alloc))),
    })
}

fn of_script_info(alloc: Global) -> Option<SetupScriptInfoResponse> {
    let (script_id, program, args) = some!(command(alloc));
    Some(SetupScriptInfoResponse {
        stress_index: None,
        script_id,
        program,
        args,
        state: UnitState::Exited {
            result: some!(described_end(alloc, "code 1")),
            time_taken: Duration::ZERO,
            slow_after: None,
        },
        output: some!(left_by_test(alloc)),
    })
}

fn of_test_info<'a>(alloc: Global) -> Option<TestInfoResponse<'a>> {
    Some(TestInfoResponse {
        stress_index: None,
        test_instance: TEST,
        retry_data: FIRST_TRY,
        state: UnitState::Terminating(UnitTerminatingState {
            pid: 7,
            time_taken: Duration::ZERO,
            reason: UnitTerminateReason::Signal,
            method: UnitTerminateMethod::Signal(UnitTerminateSignal::Term),
            waiting_duration: Duration::ZERO,
            remaining: Duration::ZERO,
        }),
        output: some!(left_by_test(alloc)),
    })
}

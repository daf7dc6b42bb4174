//! What happens in a run of tests: how attempts end, what a test's attempts come to, what is
//! counted, and what a run comes to.
//!
//! A runner describes how a process ended by `ExecutionResultDescription`, keeps a test's attempts
//! as `ExecutionStatuses`, and counts each test and setup script that finishes in `RunStats`. A
//! reporter asks attempts for their `ExecutionDescription`, counters for their `FinalRunStats`,
//! `StatusLevels` for what is shown of a test that finishes, and `UnitErrorDescription` for what
//! went wrong with an attempt. What it is told while a run goes on are `ReporterEvent`s.
#![tactic(auto)]

pub mod laws;

pub use nextest_config_elements_choices::FailWeight;
pub use nextest_config_elements_choices::FailWeightOutOfRange;
pub use nextest_config_elements_choices::FinalStatusLevel;
pub use nextest_config_elements_choices::FlakyResult;
pub use nextest_config_elements_choices::LeakTimeoutResult;
pub use nextest_config_elements_choices::NextestRunMode;
pub use nextest_config_elements_choices::SlowTimeoutResult;
pub use nextest_config_elements_choices::StatusLevel;
pub use nextest_config_elements_choices::TestOutputDisplay;
pub use nextest_config_elements_identifiers::CustomTestGroup;
pub use nextest_config_elements_identifiers::TestGroup;
pub use nextest_config_elements_values::JunitFlakyFailStatus;
pub use nextest_config_elements_values::MismatchReason;
pub use nextest_config_elements_values::ReportSkipPolicy;
pub use nextest_config_resolution_commands::ScriptId;
pub use nextest_json::Form;
pub use nextest_run_events_counters::EmptyStatuses;
pub use nextest_run_events_counters::ExecutionDescription;
pub use nextest_run_events_counters::ExecutionStatuses;
pub use nextest_run_events_counters::FinalRunStats;
pub use nextest_run_events_counters::RunFailureStep;
pub use nextest_run_events_counters::RunStats;
pub use nextest_run_events_counters::RunStatsFailureKind;
pub use nextest_run_events_errors::DescribedError;
pub use nextest_run_events_errors::DescribedErrorList;
pub use nextest_run_events_errors::DescribedErrors;
pub use nextest_run_events_errors::UnitAbortDescription;
pub use nextest_run_events_errors::UnitErrorDescription;
pub use nextest_run_events_json::JsonError;
pub use nextest_run_events_json::JsonForm;
pub use nextest_run_events_json::RunEvents;
pub use nextest_run_events_outcomes::NonZeroDuration;
pub use nextest_run_events_outcomes::RunFinishedStats;
pub use nextest_run_events_outcomes::RunOutcome;
pub use nextest_run_events_outcomes::StressCondition;
pub use nextest_run_events_outcomes::StressCount;
pub use nextest_run_events_outcomes::StressFinalRunStats;
pub use nextest_run_events_outcomes::StressIndex;
pub use nextest_run_events_outcomes::StressProgress;
pub use nextest_run_events_outcomes::StressRemaining;
pub use nextest_run_events_outcomes::StressRunStats;
pub use nextest_run_events_outcomes::TestInfoResponse;
pub use nextest_run_events_outcomes::TestList;
pub use nextest_run_events_outcomes::TestsNotSeen;
pub use nextest_run_events_outcomes::UnitKind;
pub use nextest_run_events_outcomes::UnitState;
pub use nextest_run_events_outcomes::UnitTerminateMethod;
pub use nextest_run_events_outcomes::UnitTerminateReason;
pub use nextest_run_events_outcomes::UnitTerminateSignal;
pub use nextest_run_events_outcomes::UnitTerminatingState;
pub use nextest_run_events_outputs::Boxed;
pub use nextest_run_events_outputs::ChildError;
pub use nextest_run_events_outputs::ChildErrorDescription;
pub use nextest_run_events_outputs::ChildExecutionOutput;
pub use nextest_run_events_outputs::ChildExecutionOutputDescription;
pub use nextest_run_events_outputs::ChildFdError;
pub use nextest_run_events_outputs::ChildOutput;
pub use nextest_run_events_outputs::ChildOutputDescription;
pub use nextest_run_events_outputs::ChildSingleOutput;
pub use nextest_run_events_outputs::ChildSplitOutput;
pub use nextest_run_events_outputs::ChildStartError;
pub use nextest_run_events_outputs::ChildStartErrorDescription;
pub use nextest_run_events_outputs::ErrorChain;
pub use nextest_run_events_outputs::ErrorList;
pub use nextest_run_events_outputs::ErrorSummary;
pub use nextest_run_events_outputs::EventTime;
pub use nextest_run_events_outputs::ExecuteStatus;
pub use nextest_run_events_outputs::LiveSpec;
pub use nextest_run_events_outputs::OutputErrorSlice;
pub use nextest_run_events_outputs::OutputSpec;
pub use nextest_run_events_outputs::RetryData;
pub use nextest_run_events_outputs::SerializableError;
pub use nextest_run_events_outputs::SerializableErrorSource;
pub use nextest_run_events_outputs::SerializableErrorSources;
pub use nextest_run_events_outputs::SetupScriptEnvMap;
pub use nextest_run_events_outputs::SetupScriptExecuteStatus;
pub use nextest_run_events_reporting::InfoResponse;
pub use nextest_run_events_reporting::ReporterEvent;
pub use nextest_run_events_reporting::SetupScriptInfoResponse;
pub use nextest_run_events_reporting::TestEvent;
pub use nextest_run_events_reporting::TestEventKind;
pub use nextest_run_events_reporting::TestSlotAssignment;
pub use nextest_run_events_results::AbortDescription;
pub use nextest_run_events_results::AbortStatus;
pub use nextest_run_events_results::CancelReason;
pub use nextest_run_events_results::ExecutionResult;
pub use nextest_run_events_results::ExecutionResultDescription;
pub use nextest_run_events_results::ExitStatus;
pub use nextest_run_events_results::FailureDescription;
pub use nextest_run_events_results::FailureStatus;
pub use nextest_run_events_results::OwnedTestInstanceId;
pub use nextest_run_events_results::RustBinaryId;
pub use nextest_run_events_results::SIGTERM;
pub use nextest_run_events_results::TestInstanceId;
pub use nextest_run_events_results::signal_name;
pub use nextest_run_events_slices::ByteSubslice;
pub use nextest_run_events_slices::TestOutputErrorSlice;
pub use nextest_run_events_visibility::OutputOnTestFinished;
pub use nextest_run_events_visibility::OutputStoreFinal;
pub use nextest_run_events_visibility::StatusLevels;
pub use nextest_text::Listing;
pub use nextest_text::Text;

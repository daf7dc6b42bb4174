// Values in their order, and how some of them print.
use crate::filter_trees::tree_of_no_text;
use crate::page::{Page, Whole};
use crate::parts::{Word, three, two};
use crate::values::word_as;
use crate::{ok, show, some};
use nextest_config_elements::{
    FinalStatusLevel, FlakyResult, InvalidIdentifier, StatusLevel, ToolName,
};
use nextest_config_resolution::{
    ConfigWarning, InheritanceFault, ScriptId, ScriptInfo, ScriptType,
};
use nextest_filtering::{GlobConstructError, ParseError, PatternError};
use nextest_run_events::{
    CancelReason, ExecutionResultDescription, JsonError, OwnedTestInstanceId, RunFailureStep,
    TestInstanceId, UnitState, UnitTerminateReason, UnitTerminateSignal,
};
use nextest_text::{Listing, Text};
use std::alloc::Global;
use std::time::Duration;
use test_runner_core_inputs::{InputsError, InputsRefusal};
use test_runner_core_workspace::ListFault;

// A kind of values, and two of them: how the first compares to the second, how the second to the
// first, and whether they are equal.
pub(crate) fn orders(page: &mut Page, input: &str) -> Option<()> {
    let (kind, low, high) = three(input);
    match kind {
        "levels" => words_compared::<StatusLevel>(page, low, high),
        "final-levels" => words_compared::<FinalStatusLevel>(page, low, high),
        "reasons" => words_compared::<CancelReason>(page, low, high),
        "steps" => words_compared::<RunFailureStep>(page, low, high),
        "tools" => words_compared::<ToolName>(page, low, high),
        "texts" => words_compared::<Listing<Text>>(page, low, high),
        "tests" => words_compared::<OwnedTestInstanceId>(page, low, high),
        _ => None,
    }
}

fn words_compared<T: Word + Ord>(page: &mut Page, low: &str, high: &str) -> Option<()> {
    let low = some!(T::of_word(page.alloc, low));
    let high = some!(T::of_word(page.alloc, high));
    compared(page, low, high);
    Some(())
}

fn compared<T: Ord + Drop>(page: &mut Page, low: T, high: T) {
    show!(page; Whole(low.cmp(&high)), " ", Whole(high.partial_cmp(&low)), " ", low == high);
}

impl Word for StatusLevel {
    fn of_word(alloc: Global, word: &str) -> Option<StatusLevel> {
        word_as(alloc, word)
    }
}

impl Word for FinalStatusLevel {
    fn of_word(alloc: Global, word: &str) -> Option<FinalStatusLevel> {
        word_as(alloc, word)
    }
}

impl Word for ToolName {
    fn of_word(alloc: Global, word: &str) -> Option<ToolName> {
        ToolName::new(alloc, word).ok()
    }
}

impl Word for OwnedTestInstanceId {
    fn of_word(alloc: Global, word: &str) -> Option<OwnedTestInstanceId> {
        let (binary_id, test_name) = two(word, "/");
        let id = TestInstanceId {
            binary_id,
            test_name,
        };
        ok!(id.to_owned(alloc)).clone().ok()
    }
}

impl Word for RunFailureStep {
    fn of_word(_: Global, word: &str) -> Option<RunFailureStep> {
        match word {
            "test" => Some(RunFailureStep::Test),
            "setup-script" => Some(RunFailureStep::SetupScript),
            _ => None,
        }
    }
}

// A text: how it prints, how it fills seven places, how it prints in quotes, and its bytes.
pub(crate) fn shown_texts(page: &mut Page, input: &str) -> Option<()> {
    let text = ok!(Text::from_str(page.alloc, input));
    page.show(format_args!("{text}|{text:>7}|{text:?}|"));
    page.show(ok!(text.into_string(page.alloc)).len());
    Some(())
}

// What no row of another table gives: how it prints.
pub(crate) fn words(page: &mut Page, input: &str) -> Option<()> {
    match input {
        "a tree of no text" => page.show(some!(tree_of_no_text(page.alloc))),
        "refused globs" => {
            show!(page; GlobConstructError::InvalidGlob, "; ", GlobConstructError::OutOfMemory);
        }
        "refused patterns" => show!(page; PatternError::Syntax, "; ", PatternError::OutOfMemory),
        "refused filtersets" => {
            page.show(ParseError::Faults(Vec::new(page.alloc)));
            show!(page; "; ", ParseError::OutOfMemory);
        }
        "the rule for flaky tests where none is set" => page.debug(FlakyResult::default()),
        "refused names" => page.show(InvalidIdentifier::OutOfMemory),
        "refused JSON" => page.show(JsonError::OutOfMemory),
        _ => return endings(page, input),
    }
    Some(())
}

// Outputs of units, and why and how a unit is ended.
fn endings(page: &mut Page, input: &str) -> Option<()> {
    match input {
        "output of an attempt that runs, and of one that is waited for" => {
            let (running, delayed) = (ok!(running().clone()), ok!(delayed().clone()));
            show!(page; running.has_valid_output(), " ", delayed.has_valid_output());
        }
        "reasons of an end" => show!(
            page;
            UnitTerminateReason::Timeout, " ",
            UnitTerminateReason::Signal, " ",
            UnitTerminateReason::Interrupt
        ),
        "signals of an end" => show!(
            page;
            UnitTerminateSignal::Interrupt, " ",
            UnitTerminateSignal::Term, " ",
            UnitTerminateSignal::Hangup, " ",
            UnitTerminateSignal::Quit, " ",
            UnitTerminateSignal::Kill
        ),
        _ => return copies(page, input),
    }
    Some(())
}

// Copies of what nothing else copies.
fn copies(page: &mut Page, input: &str) -> Option<()> {
    let text = ok!(Text::from_str(page.alloc, "x"));
    match input {
        "a copy of a cycle of profiles" => {
            page.debug_copy(&InheritanceFault::Cycle { profile: text });
        }
        "a copy of a warning" => {
            page.debug_copy(&ConfigWarning::UnknownReservedProfile { profile: text });
        }
        "a copy of why inputs are refused" => {
            page.debug_copy(&InputsError::Refused(InputsRefusal::Field(text)));
        }
        "a copy of why tests can't be listed" => page.debug_copy(&ListFault::Cause(text)),
        "a copy of a script's name and kind" => page.debug_copy(&ScriptInfo {
            id: ok!(ScriptId::new(page.alloc, text.as_str())),
            script_type: ScriptType::Wrapper,
        }),
        _ => return None,
    }
    Some(())
}

fn running() -> UnitState {
    UnitState::Running {
        pid: 7,
        time_taken: Duration::from_secs(1),
        slow_after: None,
    }
}

fn delayed() -> UnitState {
    UnitState::DelayBeforeNextAttempt {
        previous_result: ExecutionResultDescription::ExecFail,
        previous_slow: false,
        waiting_duration: Duration::ZERO,
        remaining: Duration::from_secs(1),
    }
}

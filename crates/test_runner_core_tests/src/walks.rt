// A run with scripts, taken step by step, and on behind a refused step, as no log can be: what each
// finishes, and which steps are refused, by which name first.
use nextest_run_events_results::{CancelReason, ExecutionResultDescription, FailureDescription};
use nextest_text::Listing;
use std::alloc::{AllocError, Global};
use std::test::Fail;
use test_runner_core::{
    BuildPlan, Finished, Inputs, Mark, Plan, Record, RecordOutput, Session, StartFault,
    StepRefusal, TableLister, TestInstanceId,
};

// The inputs of the scripts s and t and of the tests p a and q a.
const TWO: &str =
    r#"{"workspace":{"packages":[{"id":"p","name":"p"}],"links":[],"binaries":[{"id":"p","name":"p","package":"p","kind":"lib","platform":"target","tests":["a"]},{"id":"q","name":"q","package":"p","kind":"lib","platform":"target","tests":["a"]}]},"sources":[{"kind":"explicit","path":"n","text":"experimental = ['setup-scripts']\n[scripts.setup]\ns.command = 'x'\nt.command = 'x'\n[[profile.default.scripts]]\nfilter = 'all()'\nsetup = ['t', 's']\n"}],"current_version":"1.0.0"}"#;

// Their plan, in which tests have one try each, and the first failing one stops the run.
fn plan_of_two(alloc: Global) -> Result<Plan, Fail> {
    let inputs = Inputs::from_json(alloc, TWO.as_bytes())?;
    let mut lister = TableLister::new(alloc, &inputs.workspace)?;
    Ok(Plan::build(alloc, &inputs, &mut lister)?)
}

// The record of what passed, or failed, and wrote something.
fn ended(alloc: Global, has_passed: bool) -> Result<Record, AllocError> {
    let result = if has_passed {
        ExecutionResultDescription::Pass
    } else {
        ExecutionResultDescription::Fail {
            failure: FailureDescription::ExitCode { code: 1 },
            leaked: false,
        }
    };
    Ok(Record {
        result,
        slow: false,
        nanos: 1,
        output: RecordOutput::Streams {
            out: Some(Listing::from(vec![in alloc; 65, 10]?)),
            err: None,
        },
    })
}

fn test_a_of(binary: &str) -> TestInstanceId<'_> {
    TestInstanceId {
        binary_id: binary,
        test_name: "a",
    }
}

// What a step came to.
#[derive(Clone, Copy, PartialEq, Eq)]
enum Told {
    Started,
    Finished(Finished),
    Refused(StepRefusal),
    NoMemory,
}

fn told_of(answer: Result<Finished, StepRefusal>) -> Told {
    match answer {
        Ok(finished) => Told::Finished(finished),
        Err(refusal) => Told::Refused(refusal),
    }
}

// What a step came to that finished the test at a place, if one, and stopped the run or not.
fn step_finished(ended: Option<usize>, stops: bool) -> Told {
    Told::Finished(Finished { ended, stops })
}

// A script of this id passes.
fn script_passes(alloc: Global, run: &mut Session<'_>, id: &str) -> Told {
    match ended(alloc, true) {
        Ok(record) => told_of(run.script_finished(id, record)),
        Err(_) => Told::NoMemory,
    }
}

// The test a of a binary starts.
fn starts(run: &mut Session<'_>, binary: &str) -> Told {
    match run.start(test_a_of(binary)) {
        Ok(()) => Told::Started,
        Err(StartFault::Refused(refusal)) => Told::Refused(refusal),
        Err(StartFault::OutOfMemory) => Told::NoMemory,
    }
}

// The test a of a binary fails.
fn fails(alloc: Global, run: &mut Session<'_>, binary: &str) -> Told {
    match ended(alloc, false) {
        Ok(record) => told_of(run.attempt_finished(test_a_of(binary), record)),
        Err(_) => Told::NoMemory,
    }
}

// How far the test a of a binary is, and how many of its attempts ended.
fn fate_of(run: &Session<'_>, binary: &str) -> Option<(Mark, usize)> {
    let Some(fate) = run.fate(test_a_of(binary)) else {
        return None;
    };
    Some((
        fate.mark,
        fate.attempts.map_or(0, |attempts| attempts.len()),
    ))
}

#[test]
fn a_run_with_scripts_goes_by_names(rt: HostRuntime) -> Result<(), Fail> {
    let plan = plan_of_two(rt.alloc())?;
    let mut run = Session::new(rt.alloc(), &plan)?;
    let told = [
        script_passes(rt.alloc(), &mut run, "u"),
        script_passes(rt.alloc(), &mut run, "t"),
        starts(&mut run, "p"),
        script_passes(rt.alloc(), &mut run, "s"),
        script_passes(rt.alloc(), &mut run, "t"),
        fails(rt.alloc(), &mut run, "r"),
        starts(&mut run, "q"),
        starts(&mut run, "q"),
        fails(rt.alloc(), &mut run, "q"),
        starts(&mut run, "p"),
        fails(rt.alloc(), &mut run, "p"),
        told_of(run.stop(CancelReason::TestFailure)),
    ];
    let due = [
        Told::Refused(StepRefusal::UnknownScript),
        Told::Refused(StepRefusal::OutOfOrder),
        Told::Refused(StepRefusal::ScriptsPending),
        step_finished(None, false),
        step_finished(None, false),
        Told::Refused(StepRefusal::UnknownTest),
        Told::Started,
        Told::Refused(StepRefusal::Running),
        step_finished(Some(1), true),
        Told::Refused(StepRefusal::Stopped),
        Told::Refused(StepRefusal::NotRunning),
        Told::Refused(StepRefusal::InnerReason),
    ];
    assert!(rt; told == due && run.is_complete() && run.status() == 100);
    let fates = (fate_of(&run, "p"), fate_of(&run, "q"), fate_of(&run, "r"));
    let over = Some((Mark::Finished(None), 1));
    assert!(rt; fates == (Some((Mark::Waiting, 0)), over, None));
    Ok(())
}

#[test]
fn a_stopped_run_takes_no_script(rt: HostRuntime) -> Result<(), Fail> {
    let plan = plan_of_two(rt.alloc())?;
    let mut run = Session::new(rt.alloc(), &plan)?;
    let told = [
        told_of(run.stop(CancelReason::Interrupt)),
        script_passes(rt.alloc(), &mut run, "u"),
        script_passes(rt.alloc(), &mut run, "t"),
        starts(&mut run, "p"),
    ];
    let due = [
        step_finished(None, true),
        Told::Refused(StepRefusal::UnknownScript),
        Told::Refused(StepRefusal::Stopped),
        Told::Refused(StepRefusal::Stopped),
    ];
    assert!(rt; told == due);
    Ok(())
}

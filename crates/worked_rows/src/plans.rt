// Inputs, and their plan.
use crate::calls_again::{CHANGED, TURNS};
use crate::changes::changed;
use crate::defined::run_told;
use crate::page::{Page, Tell, Whole};
use crate::table::{Table, rows_hold};
use crate::{ok, show, some};
use anyhow::Result;
use nextest_run_events::TestInstanceId;
use std::rt::Files;
use test_runner_core_inputs::Inputs;
use test_runner_core_plan::{Plan, PlanSettings, PlanTest};
use test_runner_core_planning::{BuildPlan, PlanError};
use test_runner_core_run_model::Mark;
use test_runner_core_session::Session;
use test_runner_core_workspace::TableLister;

// Whether each row of the tables of plans has the plan that is made of its inputs; of two of them a
// row changes parts of these inputs.
pub(crate) fn plans_hold<R: Files + Print + AllocGlobal>(rt: &R, inputs: &str) -> Result<bool> {
    let tables = [
        ("plans", Some(inputs), false),
        ("selected", None, false),
        ("in_force", None, false),
        ("profiles_plans", Some(inputs), true),
    ];
    let mut hold = true;
    for (name, base, has_settings) in tables {
        hold &= rows_hold(
            rt,
            &Plans {
                name,
                base,
                has_settings,
            },
        )?;
    }
    Ok(hold)
}

/// Inputs, each with what is shown of their plan, or the name under which they are refused.
#[derive(Drop)]
pub struct Plans<'a> {
    /// The table's name.
    pub name: &'static str,
    /// The inputs of which a row changes parts; each row has whole inputs where there are none.
    pub base: Option<&'a str>,
    /// What is shown of a plan: its tests with their tries and settings, its scripts, the limit,
    /// the levels and the warnings. Else the tests with their tries, the scripts, the skipped
    /// tests, the limit, the listed binaries, and those that were asked for their tests.
    pub has_settings: bool,
}

impl Table for Plans<'_> {
    fn name(&self) -> &'static str {
        self.name
    }

    fn answer(&self, page: &mut Page, input: &str) -> Option<()> {
        match self.base {
            Some(base) => {
                let text = some!(changed(page.alloc, base, input));
                planned(page, text.as_str(), self.has_settings)
            }
            None => planned(page, input, self.has_settings),
        }
    }
}

fn planned(page: &mut Page, text: &str, has_settings: bool) -> Option<()> {
    let inputs = ok!(Inputs::from_json(page.alloc, text.as_bytes()));
    plan_of(page, &inputs, has_settings)
}

fn plan_of(page: &mut Page, inputs: &Inputs, has_settings: bool) -> Option<()> {
    let mut lister = ok!(ok!(TableLister::new(page.alloc, &inputs.workspace)).clone());
    match Plan::build(page.alloc, inputs, &mut lister) {
        Ok(plan) => plan_told(page, &ok!(plan.clone()), has_settings),
        Err(PlanError::Refused(fault)) => page.show(ok!(fault.clone()).name()),
        Err(PlanError::OutOfMemory) => page.show("no memory"),
    }
    if !has_settings {
        page.show("; asked");
        page.show_each(" ", lister.asked(), "");
    }
    Some(())
}

fn plan_told(page: &mut Page, plan: &Plan, has_settings: bool) {
    page.show("run");
    for test in plan.tests.as_slice() {
        test_told(page, test, has_settings);
    }
    if !plan.scripts.is_empty() {
        page.show("; scripts");
        page.show_each(" ", plan.scripts.as_slice(), "");
    }
    if has_settings {
        settings_told(page, plan);
    } else {
        selection_told(page, plan);
    }
}

// A test, and perhaps its settings.
fn test_told(page: &mut Page, test: &PlanTest, has_settings: bool) {
    let instance = &test.instance;
    show!(page; " [", &instance.binary_id, " ", &instance.test_name, " x", test.tries);
    if has_settings {
        page.tell_copy::<PlanSettings>(&test.settings);
    }
    page.show("]");
}

// Some settings of a test, with its wrapper script where it has one.
impl Tell for PlanSettings {
    fn tell(&self, page: &mut Page) {
        show!(
            page;
            " ", Whole(&self.flaky_result),
            " ", Whole(&self.success_output),
            " ", Whole(&self.failure_output)
        );
        if let Some(wrapper) = self.run_wrapper.as_ref() {
            page.show(" wrapper ");
            run_told(page, wrapper);
        }
    }
}

fn settings_told(page: &mut Page, plan: &Plan) {
    let levels = &plan.levels;
    show!(page; "; limit ", Whole(plan.limit), "; levels ", Whole(levels.status_level));
    show!(page; " ", Whole(levels.final_status_level), "; warnings");
    page.show_each(" [", plan.warnings.as_slice(), "]");
}

fn selection_told(page: &mut Page, plan: &Plan) {
    page.show("; skip");
    for test in plan.skipped.as_slice() {
        show!(page; " [", &test.binary_id, " ", &test.test_name, "]");
    }
    show!(page; "; limit ", Whole(plan.limit), "; listed");
    page.show_each(" ", plan.listed.as_slice(), "");
}

// Inputs: how far the first test of their plan is, once it started.
pub(crate) fn start(page: &mut Page, text: &str) -> Option<()> {
    let inputs = ok!(Inputs::from_json(page.alloc, text.as_bytes()));
    let mut lister = ok!(TableLister::new(page.alloc, &inputs.workspace));
    let plan = ok!(Plan::build(page.alloc, &inputs, &mut lister));
    started(page, &plan, some!(plan.tests.as_slice().first()))
}

fn started(page: &mut Page, plan: &Plan, test: &PlanTest) -> Option<()> {
    let mut run = ok!(ok!(Session::new(page.alloc, plan)).clone());
    let id = TestInstanceId {
        binary_id: test.instance.binary_id.as_str(),
        test_name: test.instance.test_name.as_str(),
    };
    for turn in TURNS {
        if run.start(id).is_ok() {
            show!(page; Whole(some!(run.fate(id)).mark), turn);
            return Some(());
        }
        if some!(run.fate(id)).mark != Mark::Waiting {
            page.show(CHANGED);
        }
    }
    None
}

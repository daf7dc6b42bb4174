//! What holds of every plan that is built. Each function does nothing, and its contract is the law.
ghost use Rattle.test_runner_core_planning.specs.Laws.{Decided, DefaultOnce, DefaultTwice, HasExactlyTheWanted, HasNoneTwice, HaveTheirSettings, IsolatesPlans, ListsExactly, NotPlannedAndRefused, OnePlan, Roads};

/// Inputs have at most one plan.
pub fn one_plan()
    ensures { OnePlan }
{}

/// Inputs that have a plan aren't refused.
pub fn not_planned_and_refused()
    ensures { NotPlannedAndRefused }
{}

/// A test is selected exactly if a binary of the workspace answers its name and all filters in
/// force hold on it.
pub fn selected()
    ensures { HasExactlyTheWanted }
{}

/// Two roads lead to the selected tests: where the lister answers every binary with names that are
/// accepted, the tests of a plan are those of all binaries, whether listed or not, on which the
/// filters in force hold.
pub fn roads()
    ensures { Roads }
{}

/// Where the default filter is in force, a filterset may ask for it too: inputs with a filterset F
/// that is accepted and inputs with `(F) and default()` have the same plan, if one of both has one.
pub fn default_twice()
    ensures twice { DefaultTwice }
    ensures once { DefaultOnce }
{}

/// Each test of a plan has the settings that are set for it in its binary.
pub fn settled()
    ensures { HaveTheirSettings }
{}

/// A binary is listed exactly if each filter in force can hold on it, by answers of its own to what
/// it asks of the binary's tests.
pub fn listed()
    ensures { ListsExactly }
{}

/// A plan that was built has each selected test once: no two of its tests have the same binary's id
/// and the same name.
pub fn selected_once()
    ensures { HasNoneTwice }
{}

/// Profiles outside of the chosen one's chain change nothing: where two inputs ask for the same
/// tests of one workspace, choose one profile, for the same platforms, and their files agree but in
/// profiles other than the chosen one, its parents and `default`, and both have a plan, then it is
/// one plan, warnings aside.
pub fn isolation()
    ensures plan { IsolatesPlans }
{}

/// It can't be that inputs have neither a plan nor a refusal, whatever the lister answers.
pub fn decided()
    ensures { Decided }
{}

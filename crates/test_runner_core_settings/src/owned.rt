// The settings of a test, owned.
ghost use Rattle.std.specs.Prelude.{◌≡◌, IfOk};
ghost use Rattle.std.specs.Option.{option_copied};
ghost use Rattle.nextest_config_resolution_settings.specs.TestSettings.{group_of};
ghost use Rattle.test_runner_core_settings.specs.Settings.{owned_of};

use nextest_config_elements_identifiers::TestGroup;
use nextest_config_resolution_settings::{TestGroupRef, TestSettings, WrapperScriptConfig};
use nextest_text::{Listing, Text};
use std::alloc::{AllocError, Global};
use test_runner_core_plan::PlanSettings;

/// The settings of a test as a plan keeps them: these, owned. It fails only on allocation.
pub fn owned_settings(
    alloc: Global,
    settings: &TestSettings<'_>,
) -> Result<PlanSettings, AllocError>
    ensures { IfOk result (λ it. it ≡ owned_of settings.now) }
{
    let group = owned_group(settings.test_group())?;
    with_group(alloc, settings, group)
}

// These settings, owned, in a group.
fn with_group(
    alloc: Global,
    settings: &TestSettings<'_>,
    test_group: TestGroup,
) -> Result<PlanSettings, AllocError>
    ensures { test_group ≡ group_of settings.now.test_group.0
        → IfOk result (λ it. it ≡ owned_of settings.now) }
{
    Ok(PlanSettings {
        priority: settings.priority(),
        threads_required: settings.threads_required(),
        run_wrapper: owned_wrapper(settings.run_wrapper())?,
        run_extra_args: owned_texts(alloc, settings.run_extra_args())?,
        retries: settings.retries(),
        flaky_result: settings.flaky_result(),
        fail_weight: settings.fail_weight(),
        slow_timeout: settings.slow_timeout(),
        leak_timeout: settings.leak_timeout(),
        test_group,
        success_output: settings.success_output(),
        failure_output: settings.failure_output(),
        junit_store_success_output: settings.junit_store_success_output(),
        junit_store_failure_output: settings.junit_store_failure_output(),
        junit_report_skipped: settings.junit_report_skipped(),
        junit_flaky_fail_status: settings.junit_flaky_fail_status(),
    })
}

// A wrapper script, owned.
fn owned_wrapper(
    wrapper: Option<&WrapperScriptConfig>,
) -> Result<Option<WrapperScriptConfig>, AllocError>
    ensures { IfOk result (λ it. it ≡ option_copied wrapper.entry) }
{
    match wrapper {
        Some(wrapper) => Ok(Some(wrapper.clone()?)),
        None => Ok(None),
    }
}

// Texts, owned.
fn owned_texts(alloc: Global, texts: &[Text]) -> Result<Listing<Text>, AllocError>
    ensures { IfOk result (λ it. it ≡ texts.now) }
{
    let mut owned = Listing::new(alloc);
    for text in texts {
        owned.push(text.clone()?)?;
    }
    Ok(owned)
}

// A group, owned.
fn owned_group(group: TestGroupRef<'_>) -> Result<TestGroup, AllocError>
    ensures { IfOk result (λ it. it ≡ group_of group.entry) }
{
    match group {
        TestGroupRef::Global => Ok(TestGroup::Global),
        TestGroupRef::Custom(custom) => Ok(TestGroup::Custom(custom.clone()?)),
    }
}

// What counts as a failure beside a failing exit.
ghost use Rattle.std.specs.Prelude.{◌≡◌, IfOk, option_map, string_bytes};
ghost use Rattle.nextest_config_elements_choices.specs.Flaky.{message_of};

use std::alloc::{AllocError, Global};

/// What becomes of a test that passes on a later attempt than its first.
#[derive(Clone, Copy, Debug, Default, PartialEq, Eq, Hash)]
pub enum FlakyResult {
    /// It fails.
    Fail,
    /// It passes, and is reported as flaky. The rule where nothing is set.
    #[default]
    Pass,
}

impl FlakyResult {
    /// What is told of a test that passed on this attempt of so many, where it fails for that;
    /// `None` where it passes. An `Err` says that there was no memory.
    pub fn fail_message(
        self,
        alloc: Global,
        attempt: u32,
        total_attempts: u32,
    ) -> Result<Option<String>, AllocError>
        ensures { IfOk result
            (λ message. option_map string_bytes message ≡ message_of self attempt total_attempts) }
    {
        match self {
            FlakyResult::Fail => Ok(Some(format!(in alloc;
                "test passed on attempt {attempt}/{total_attempts} but is configured to fail when flaky"
            )?)),
            FlakyResult::Pass => Ok(None),
        }
    }
}

/// What becomes of a process that ended well and left handles open.
#[derive(Clone, Copy, Debug, PartialEq, Eq, Hash)]
pub enum LeakTimeoutResult {
    /// It fails.
    Fail,
    /// It passes.
    Pass,
}

/// What becomes of a process that was ended since it took too long.
#[derive(Clone, Copy, Debug, PartialEq, Eq, Hash)]
pub enum SlowTimeoutResult {
    /// It fails.
    Fail,
    /// It passes.
    Pass,
}

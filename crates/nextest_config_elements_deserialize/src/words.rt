// The values that are one of some words.
ghost use Rattle.nextest_config_elements_deserialize.specs.Words as word_of;

use crate::config_value::ConfigValue;
use crate::values::Any;
use nextest_config_elements_choices::{
    FinalStatusLevel, FlakyResult, LeakTimeoutResult, SlowTimeoutResult, StatusLevel,
    TerminateMode, TestOutputDisplay,
};
use toml::Value;

impl ConfigValue<Any> for FlakyResult {
    ghost meaning = { word_of.flaky_result };

    fn expected() -> &'static str {
        "`pass` or `fail`"
    }

    fn from_value(value: &Value) -> Option<FlakyResult> {
        match value.as_str()? {
            "pass" => Some(FlakyResult::Pass),
            "fail" => Some(FlakyResult::Fail),
            _ => None,
        }
    }
}

impl ConfigValue<Any> for LeakTimeoutResult {
    ghost meaning = { word_of.leak_result };

    fn expected() -> &'static str {
        "`pass` or `fail`"
    }

    fn from_value(value: &Value) -> Option<LeakTimeoutResult> {
        match value.as_str()? {
            "pass" => Some(LeakTimeoutResult::Pass),
            "fail" => Some(LeakTimeoutResult::Fail),
            _ => None,
        }
    }
}

impl ConfigValue<Any> for SlowTimeoutResult {
    ghost meaning = { word_of.slow_result };

    fn expected() -> &'static str {
        "`fail` or `pass`"
    }

    fn from_value(value: &Value) -> Option<SlowTimeoutResult> {
        match value.as_str()? {
            "fail" => Some(SlowTimeoutResult::Fail),
            "pass" => Some(SlowTimeoutResult::Pass),
            _ => None,
        }
    }
}

impl ConfigValue<Any> for TerminateMode {
    ghost meaning = { word_of.terminate_mode };

    fn expected() -> &'static str {
        "`wait` or `immediate`"
    }

    fn from_value(value: &Value) -> Option<TerminateMode> {
        match value.as_str()? {
            "wait" => Some(TerminateMode::Wait),
            "immediate" => Some(TerminateMode::Immediate),
            _ => None,
        }
    }
}

impl ConfigValue<Any> for TestOutputDisplay {
    ghost meaning = { word_of.output_display };

    fn expected() -> &'static str {
        "`immediate`, `immediate-final`, `final` or `never`"
    }

    fn from_value(value: &Value) -> Option<TestOutputDisplay> {
        match value.as_str()? {
            "immediate" => Some(TestOutputDisplay::Immediate),
            "immediate-final" => Some(TestOutputDisplay::ImmediateFinal),
            "final" => Some(TestOutputDisplay::Final),
            "never" => Some(TestOutputDisplay::Never),
            _ => None,
        }
    }
}

impl ConfigValue<Any> for StatusLevel {
    ghost meaning = { word_of.status_level };

    fn expected() -> &'static str {
        "`none`, `fail`, `retry`, `slow`, `leak`, `pass`, `skip` or `all`"
    }

    fn from_value(value: &Value) -> Option<StatusLevel> {
        match value.as_str()? {
            "none" => Some(StatusLevel::None),
            "fail" => Some(StatusLevel::Fail),
            "retry" => Some(StatusLevel::Retry),
            "slow" => Some(StatusLevel::Slow),
            "leak" => Some(StatusLevel::Leak),
            "pass" => Some(StatusLevel::Pass),
            "skip" => Some(StatusLevel::Skip),
            "all" => Some(StatusLevel::All),
            _ => None,
        }
    }
}

impl ConfigValue<Any> for FinalStatusLevel {
    ghost meaning = { word_of.final_status_level };

    fn expected() -> &'static str {
        "`none`, `fail`, `flaky`, `slow`, `skip`, `leak`, `pass` or `all`"
    }

    fn from_value(value: &Value) -> Option<FinalStatusLevel> {
        match value.as_str()? {
            "none" => Some(FinalStatusLevel::None),
            "fail" => Some(FinalStatusLevel::Fail),
            "flaky" => Some(FinalStatusLevel::Flaky),
            "retry" => Some(FinalStatusLevel::Flaky),
            "slow" => Some(FinalStatusLevel::Slow),
            "skip" => Some(FinalStatusLevel::Skip),
            "leak" => Some(FinalStatusLevel::Leak),
            "pass" => Some(FinalStatusLevel::Pass),
            "all" => Some(FinalStatusLevel::All),
            _ => None,
        }
    }
}

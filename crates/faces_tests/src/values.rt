// A value of a configuration.
ghost use Rattle.toml.specs.View.{view};
ghost use Rattle.nextest_config_elements.specs.Paths.{Gives};
ghost use Rattle.nextest_config_elements.specs.RetryReadings.{retry_policy_in};

use nextest_config_elements::{RetryPolicy, ValueError, deserialize_retry_policy};
use std::alloc::Global;
use toml::Value;

/// How a failing test is tried again, by a value that stands at a path, as `profile.ci.retries`.
pub fn retries(alloc: Global, value: &Value, path: &[&str]) -> Result<RetryPolicy, ValueError>
    ensures { Gives path.now result (retry_policy_in (view value.now)) }
{
    deserialize_retry_policy(alloc, value, path)
}

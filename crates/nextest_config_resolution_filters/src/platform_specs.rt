// The platform specs by which a configuration tells builds apart.
ghost use Rattle.std.specs.Prelude.{◌≡◌, ℕ, Bool, List, Option};
ghost use Rattle.nextest_config_resolution_filters.specs.Calls.{ReadsSpec};
ghost use Rattle.nextest_config_resolution_filters.specs.Specs.{SpecsLaws};

use crate::spec_error::SpecError;
use std::alloc::Global;

/// A platform spec, by which a configuration tells builds apart.
pub trait Specs: Drop {
    /// What is known of a platform.
    type Facts;

    // The text is this spec.
    ghost is_parsed: { List ℕ → Self → Type 0 };

    // Whether it holds on a platform of which this is known; none where that doesn't tell.
    ghost value_on: { Self → Self.Facts → Option Bool };

    /// The spec of a text. It is refused where the text is none. Or there was no memory, which says
    /// nothing of the text.
    fn parse(alloc: Global, text: &str) -> Result<Self, SpecError>
        ensures { ReadsSpec (is_parsed text.now) result };

    /// Whether it holds on a platform of which this is known; `None` where that doesn't tell. It
    /// takes no memory.
    fn eval(&self, facts: &Self::Facts) -> Option<bool>
        ensures { result ≡ value_on self.now facts.now };

    // What each kind of specs proves of these.
    ghost laws: { SpecsLaws is_parsed value_on };
}

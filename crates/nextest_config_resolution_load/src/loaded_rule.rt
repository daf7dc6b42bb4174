// A rule as it was read.
use nextest_config_resolution_overrides::PlacedOverride;
use nextest_config_resolution_scripts::PlacedScriptRule;

/// What the texts of a rule are. Each is `None` where the rule has no such text.
pub struct CompiledRule<Filter, Spec> {
    /// The spec of the platform on which tests are built and run.
    pub host: Option<Spec>,
    /// The spec of the platform for which they are built.
    pub target: Option<Spec>,
    /// The filter of the tests on which the rule holds.
    pub filter: Option<Filter>,
    /// The filter of the tests that are run where none is asked for, which overrides alone may
    /// have.
    pub default_filter: Option<Filter>,
}

// One call drops it, whoever holds it.
impl<Filter: Drop, Spec: Drop> Drop for CompiledRule<Filter, Spec> {
    fn drop(self) {
        let Self {
            host: _,
            target: _,
            filter: _,
            default_filter: _,
        } = self;
    }
}

/// A rule as it was read.
pub struct LoadedRule<Placed, Filter, Spec> {
    /// Where it is written, and what it says.
    pub placed: Placed,
    /// What its texts are.
    pub compiled: CompiledRule<Filter, Spec>,
}

// One call drops it, whoever holds it.
impl<Placed: Drop, Filter: Drop, Spec: Drop> Drop for LoadedRule<Placed, Filter, Spec> {
    fn drop(self) {
        let Self {
            placed: _,
            compiled: _,
        } = self;
    }
}

/// An override as it was read.
pub type LoadedOverride<Filter, Spec> = LoadedRule<PlacedOverride, Filter, Spec>;

/// A script rule as it was read.
pub type LoadedScriptRule<Filter, Spec> = LoadedRule<PlacedScriptRule, Filter, Spec>;

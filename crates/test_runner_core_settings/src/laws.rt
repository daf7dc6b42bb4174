//! What holds of what inputs set. Each law is the contract of a function that does nothing.
ghost use Rattle.test_runner_core_settings.specs.Laws.{AgreesOnChain, EnabledIsDefined, Isolated, IsolatesScripts, IsolatesTests, MoreEnableNoFewer, OneSettings, OneTest, PassesByConfig, RefusedBySource, SetsLimit, SomeSettings, SomeTest};

/// Inputs set one thing, or are refused for one reason; and it can't be that neither is so.
pub fn one_settings()
    ensures some { SomeSettings }
    ensures one { OneSettings }
{}

/// Inputs that set something for their run have settings for each test, and one of each.
pub fn one_test()
    ensures some { SomeTest }
    ensures one { OneTest }
{}

/// Profiles outside of the chosen one's chain, and their rules, change nothing of what is set for a
/// run, or for a test, or of which setup scripts tests need.
pub fn isolation()
    ensures run { Isolated }
    ensures tests { IsolatesTests }
    ensures scripts { IsolatesScripts }
{}

/// Inputs whose files agree but in profiles outside of the chosen one's chain agree on the chain.
pub fn agrees_on_chain()
    ensures { AgreesOnChain }
{}

/// More tests enable no fewer setup scripts, and an enabled one is defined.
pub fn enabled()
    ensures more { MoreEnableNoFewer }
    ensures defined { EnabledIsDefined }
{}

/// The weight at which failing tests stop a run is 1 at least.
pub fn sets_limit()
    ensures { SetsLimit }
{}

/// Whatever configuration the sources of inputs come to by their versions and features, the current
/// version is judged by it; and a source that is refused refuses the inputs.
pub fn version_pass_by_sources()
    ensures judged { PassesByConfig }
    ensures refused { RefusedBySource }
{}

// What filtersets ask.
ghost use Rattle.std.specs.Prelude.{◌≡◌};
ghost use Rattle.nextest_filtering_compiling.specs.Filtersets.{asked_in};

use crate::filterset::Filterset;

// What a predicate may ask.
#[derive(Clone, Copy)]
pub(crate) enum Question {
    // The group of a test.
    Group,
    // The default filter.
    Default,
    // What only a test tells: its name, its group, or the default filter.
    Test,
}

// Whether some predicate of a filterset's filter asks this.
pub(crate) fn asks(filterset: &Filterset, question: Question) -> bool
    ensures { result ≡ asked_in question filterset.now }
{
    match question {
        Question::Group => filterset.compiled.has_group_matchers(),
        Question::Default => filterset.compiled.has_default(),
        Question::Test => filterset
            .compiled
            .leaves()
            .iter()
            .any(|leaf| leaf.is_runtime_only()),
    }
}

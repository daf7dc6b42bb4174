// When a test's output is shown.
ghost use Rattle.std.specs.Prelude.{◌≡◌};
ghost use Rattle.nextest_config_elements_choices.specs.Display.{shown_at_once, shown_at_end};

/// When a test's output is shown.
#[derive(Clone, Copy, Debug, PartialEq, Eq)]
pub enum TestOutputDisplay {
    /// When the test ends.
    Immediate,
    /// When the test ends, and again when the run ends.
    ImmediateFinal,
    /// When the run ends.
    Final,
    /// Not at all.
    Never,
}

impl TestOutputDisplay {
    /// Whether it is shown when the test ends.
    pub fn is_immediate(self) -> bool
        ensures { result ≡ shown_at_once self }
    {
        match self {
            TestOutputDisplay::Immediate | TestOutputDisplay::ImmediateFinal => true,
            TestOutputDisplay::Final | TestOutputDisplay::Never => false,
        }
    }

    /// Whether it is shown when the run ends.
    pub fn is_final(self) -> bool
        ensures { result ≡ shown_at_end self }
    {
        match self {
            TestOutputDisplay::Final | TestOutputDisplay::ImmediateFinal => true,
            TestOutputDisplay::Immediate | TestOutputDisplay::Never => false,
        }
    }
}

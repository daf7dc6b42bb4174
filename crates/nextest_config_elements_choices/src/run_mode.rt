// What is run.
ghost use Rattle.std.specs.Prelude.{◌≡◌};
ghost use Rattle.nextest_config_elements_choices.specs.RunMode.{runs_benchmarks};

use std::fmt;

/// What is run.
#[derive(Clone, Copy, Debug, Default, PartialEq, Eq, Hash)]
pub enum NextestRunMode {
    /// Tests, once each. What is run where nothing is said.
    #[default]
    Test,
    /// Benchmarks.
    Benchmark,
}

impl NextestRunMode {
    /// Whether benchmarks are run.
    pub fn is_benchmark(self) -> bool
        ensures { result ≡ runs_benchmarks self }
    {
        match self {
            NextestRunMode::Test => false,
            NextestRunMode::Benchmark => true,
        }
    }
}

impl fmt::Display for NextestRunMode {
    ghost use Rattle.std.specs.Prelude.{Some};
    ghost use Rattle.nextest_config_elements_choices.specs.RunMode.{text_of};

    ghost output = { λ mode. Some (text_of mode) };

    fn fmt<W: fmt::Write>(&self, f: &mut fmt::Formatter<W>) -> fmt::Result {
        match self {
            NextestRunMode::Test => f.write_str("test"),
            NextestRunMode::Benchmark => f.write_str("benchmark"),
        }
    }
}

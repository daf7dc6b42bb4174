// How many threads there are.
ghost use Rattle.std.specs.Prelude.{◌≡◌};
ghost use Rattle.nextest_config_elements_values.specs.Threads.{test_threads_of, threads_required_of};

/// How many tests run at a time.
#[derive(Clone, Copy, Debug, PartialEq, Eq)]
pub enum TestThreads {
    /// So many, at least 1 in every accepted configuration.
    Count(usize),
    /// So many less than there are processors, but at least 1: a count below 0.
    CpusLess(usize),
    /// As many as there are processors.
    NumCpus,
}

impl TestThreads {
    /// How many tests run at a time with so many processors.
    pub fn compute(self, processors: usize) -> usize
        ensures { result ≡ test_threads_of self processors }
    {
        match self {
            TestThreads::Count(count) => count,
            TestThreads::CpusLess(count) => processors.saturating_sub(count).max(1),
            TestThreads::NumCpus => processors,
        }
    }
}

/// How many threads a test takes.
#[derive(Clone, Copy, Debug, PartialEq, Eq)]
pub enum ThreadsRequired {
    /// So many, at least 1 in every accepted configuration.
    Count(usize),
    /// As many as there are processors.
    NumCpus,
    /// As many as tests run at a time.
    NumTestThreads,
}

impl ThreadsRequired {
    /// How many threads a test takes where so many run at a time and there are so many processors.
    pub fn compute(self, test_threads: usize, processors: usize) -> usize
        ensures { result ≡ threads_required_of self test_threads processors }
    {
        match self {
            ThreadsRequired::Count(count) => count,
            ThreadsRequired::NumCpus => processors,
            ThreadsRequired::NumTestThreads => test_threads,
        }
    }
}

/// What a group of tests is set to.
#[derive(Clone, Copy, Debug, PartialEq, Eq)]
pub struct TestGroupConfig {
    /// How many threads its tests may take together.
    pub max_threads: TestThreads,
}

// Which of a test's attempts one is.
ghost use Rattle.std.specs.Prelude.{◌≡◌, nat_le};

/// Which of a test's attempts one is.
#[derive(Clone, Copy, Debug, PartialEq, Eq, PartialOrd, Ord)]
pub struct RetryData {
    /// The attempt's number, from 1.
    pub attempt: u32,
    /// How many attempts the test has at most.
    pub total_attempts: u32,
}

impl RetryData {
    /// Whether no attempt comes after this one.
    pub fn is_last_attempt(&self) -> bool
        ensures { result ≡ nat_le self.now.total_attempts self.now.attempt }
    {
        self.attempt >= self.total_attempts
    }
}

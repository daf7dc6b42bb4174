// What became of a test.
ghost use Rattle.std.specs.Prelude.{◌≡◌};
ghost use Rattle.test_runner_core_report_lines.specs.Texts.{fate_word};

/// What became of a test.
#[derive(Clone, Copy)]
pub enum ReportedFate {
    /// No attempt of it ended.
    NotRun,
    /// An attempt of it ended, and it isn't finished.
    Unfinished,
    /// Its last attempt is no success.
    Fail,
    /// Its only attempt is a success.
    Pass,
    /// It has several attempts, the last of which is a success, and passes by its flaky rule.
    Flaky,
    /// It has several attempts, the last of which is a success, and fails by its flaky rule.
    FlakyFail,
}

impl ReportedFate {
    /// Its word in a report.
    pub fn word(self) -> &'static str
        ensures { result.now ≡ fate_word self }
    {
        match self {
            ReportedFate::NotRun => "not-run",
            ReportedFate::Unfinished => "unfinished",
            ReportedFate::Fail => "fail",
            ReportedFate::Pass => "pass",
            ReportedFate::Flaky => "flaky",
            ReportedFate::FlakyFail => "flaky-fail",
        }
    }
}

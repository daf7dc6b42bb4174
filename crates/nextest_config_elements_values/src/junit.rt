// What a JUnit report has.
ghost use Rattle.std.specs.Prelude.{◌≡◌};
ghost use Rattle.nextest_config_elements_values.specs.Junit.{is_ignored, is_reported};

/// Why a test is skipped.
#[derive(Clone, Copy, Debug, PartialEq, Eq)]
pub enum MismatchReason {
    /// It is marked as ignored, and those aren't run; or it isn't, and only those are.
    Ignored,
    /// It is no benchmark, and benchmarks are run.
    NotBenchmark,
    /// No text that was asked for is in its name.
    String,
    /// The filterset doesn't have it.
    Expression,
    /// It is in another partition.
    Partition,
    /// It passed before, and only what didn't is run again.
    RerunAlreadyPassed,
    /// The default filter doesn't have it.
    DefaultFilter,
}

/// Which skipped tests are reported.
#[derive(Clone, Copy, Debug, Default, PartialEq, Eq)]
pub enum ReportSkipPolicy {
    /// None. The rule where nothing is set.
    #[default]
    None,
    /// Those that are skipped since they are marked as ignored.
    Ignored,
    /// All.
    All,
}

impl ReportSkipPolicy {
    /// Whether a test that is skipped for this reason is reported.
    pub fn should_report(self, reason: MismatchReason) -> bool
        ensures { result ≡ is_reported self reason }
    {
        match self {
            ReportSkipPolicy::None => false,
            ReportSkipPolicy::Ignored => is_ignored(reason),
            ReportSkipPolicy::All => true,
        }
    }
}

// Whether a test is skipped since it is marked as ignored.
fn is_ignored(reason: MismatchReason) -> bool
    ensures { result ≡ is_ignored reason }
{
    match reason {
        MismatchReason::Ignored => true,
        _ => false,
    }
}

/// How a test is reported that fails since it is flaky.
#[derive(Clone, Copy, Debug, Default, PartialEq, Eq)]
pub enum JunitFlakyFailStatus {
    /// As a failure. The rule where nothing is set.
    #[default]
    Failure,
    /// As a success.
    Success,
}

/// What a JUnit report has: where it is written, its name, and what of each test.
#[derive(Clone, Copy, Debug, PartialEq, Eq)]
pub struct JunitConfig<'cfg> {
    path: &'cfg str,
    report_name: &'cfg str,
    store_success_output: bool,
    store_failure_output: bool,
    report_skipped: ReportSkipPolicy,
    flaky_fail_status: JunitFlakyFailStatus,
}

impl<'cfg> JunitConfig<'cfg> {
    /// The report at `path` with this name, which has so much of each test.
    pub fn new(
        path: &'cfg str,
        report_name: &'cfg str,
        store_success_output: bool,
        store_failure_output: bool,
        report_skipped: ReportSkipPolicy,
        flaky_fail_status: JunitFlakyFailStatus,
    ) -> JunitConfig<'cfg>
        ensures path { result.path.now ≡ path.now }
        ensures report_name { result.report_name.now ≡ report_name.now }
        ensures store_success_output { result.store_success_output ≡ store_success_output }
        ensures store_failure_output { result.store_failure_output ≡ store_failure_output }
        ensures report_skipped { result.report_skipped ≡ report_skipped }
        ensures flaky_fail_status { result.flaky_fail_status ≡ flaky_fail_status }
    {
        JunitConfig {
            path,
            report_name,
            store_success_output,
            store_failure_output,
            report_skipped,
            flaky_fail_status,
        }
    }

    /// Where the report is written.
    pub fn path(&self) -> &'cfg str
        ensures { result.now ≡ self.now.path.now }
    {
        self.path
    }

    /// The name of the report.
    pub fn report_name(&self) -> &'cfg str
        ensures { result.now ≡ self.now.report_name.now }
    {
        self.report_name
    }

    /// Whether the output of tests that pass is stored.
    pub fn store_success_output(&self) -> bool
        ensures { result ≡ self.now.store_success_output }
    {
        self.store_success_output
    }

    /// Whether the output of tests that fail is stored.
    pub fn store_failure_output(&self) -> bool
        ensures { result ≡ self.now.store_failure_output }
    {
        self.store_failure_output
    }

    /// Which skipped tests are reported.
    pub fn report_skipped(&self) -> ReportSkipPolicy
        ensures { result ≡ self.now.report_skipped }
    {
        self.report_skipped
    }

    /// How a test is reported that fails since it is flaky.
    pub fn flaky_fail_status(&self) -> JunitFlakyFailStatus
        ensures { result ≡ self.now.flaky_fail_status }
    {
        self.flaky_fail_status
    }
}

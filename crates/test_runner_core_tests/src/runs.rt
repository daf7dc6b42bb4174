// Runs, and the reports that they come to, made by hand from the rules.

/// A run, and what it comes to.
pub struct Run {
    /// The line of its inputs, and its log.
    pub stream: &'static str,
    /// What is left of the log behind each line that tells something, and what is told by then.
    pub told: &'static [(&'static str, &'static [u8])],
    /// The report.
    pub report: &'static [u8],
    /// The exit status.
    pub status: u8,
}

impl Run {
    /// Its inputs, and its log.
    pub fn parts(&self) -> (&'static str, &'static str) {
        self.stream.split_once('\n').unwrap_or((self.stream, ""))
    }

    /// What is told where so many bytes of the log are left, and its end isn't found yet.
    pub fn told_before(&self, left: usize) -> &'static [u8] {
        let mut told: &'static [u8] = b"";
        for (rest, text) in self.told {
            if left <= rest.len() {
                told = *text;
            }
        }
        told
    }
}

/// A test passes at its second try: rows/runs/passes-at-second-attempt.
pub const PASSES_AT_SECOND_TRY: Run = Run {
    stream: "\
        {\"workspace\":{\"packages\":[{\"id\":\"p\",\"name\":\"p\"}],\"links\":[],\"binaries\":[{\"id\":\"p\",\"name\":\"p\",\"package\":\"p\",\"kind\":\"lib\",\"platform\":\"target\",\"tests\":[\"a\",\"b\"]}]},\"sources\":[{\"kind\":\"explicit\",\"path\":\"nextest.toml\",\"text\":\"[profile.default]\\nretries = 1\\nfail-fast = false\\n\"}],\"current_version\":\"0.9.100\"}\n\
        start\tp\ta\n\
        end\tp\ta\tfail:1\t-\t5\t-\t-\n\
        start\tp\ta\n\
        end\tp\ta\tpass\t-\t7\t-\t-\n\
        start\tp\tb\n\
        end\tp\tb\tpass\t-\t9\t-\t-\n",
    told: &[
        (
            "start\tp\tb\nend\tp\tb\tpass\t-\t9\t-\t-\n",
            b"done\tp\ta\tflaky\t2/2\n",
        ),
        ("", b"done\tp\ta\tflaky\t2/2\ndone\tp\tb\tpass\t1/2\n"),
    ],
    report: b"\
        done\tp\ta\tflaky\t2/2\n\
        done\tp\tb\tpass\t1/2\n\
        == final ==\n\
        status\t0\n\
        outcome success\n\
        initial-run-count\t2\n\
        finished-count\t2\n\
        setup-scripts-initial-count\t0\n\
        setup-scripts-finished-count\t0\n\
        setup-scripts-passed\t0\n\
        setup-scripts-failed\t0\n\
        setup-scripts-exec-failed\t0\n\
        setup-scripts-timed-out\t0\n\
        passed\t2\n\
        passed-slow\t0\n\
        passed-timed-out\t0\n\
        flaky\t1\n\
        failed\t0\n\
        failed-slow\t0\n\
        failed-timed-out\t0\n\
        leaky\t0\n\
        leaky-failed\t0\n\
        exec-failed\t0\n\
        skipped\t0\n\
        failed-weight\t0\n\
        cancel-reason\t-\n\
        test\tp\ta\tflaky\t2/2\n\
        try\t1\tfail:1\t-\t5\n\
        try\t2\tpass\t-\t7\n",
    status: 0,
};

/// A setup script times out: rows/runs/setup-script-times-out.
pub const SCRIPT_TIMES_OUT: Run = Run {
    stream: "\
        {\"workspace\":{\"packages\":[{\"id\":\"p\",\"name\":\"p\"}],\"links\":[],\"binaries\":[{\"id\":\"p\",\"name\":\"p\",\"package\":\"p\",\"kind\":\"lib\",\"platform\":\"target\",\"tests\":[\"a\",\"b\"]}]},\"sources\":[{\"kind\":\"explicit\",\"path\":\"nextest.toml\",\"text\":\"experimental = [\\\"setup-scripts\\\"]\\n[scripts.setup.s]\\ncommand = \\\"x\\\"\\n[[profile.default.scripts]]\\nfilter = \\\"all()\\\"\\nsetup = \\\"s\\\"\\n\"}],\"current_version\":\"0.9.100\"}\n\
        script\ts\ttimeout:pass\t-\t1\t-\t-\n\
        start\tp\ta\n\
        end\tp\ta\tpass\t-\t1\t-\t-\n\
        start\tp\tb\n\
        end\tp\tb\tpass\t-\t1\t-\t-\n",
    told: &[
        (
            "start\tp\tb\nend\tp\tb\tpass\t-\t1\t-\t-\n",
            b"done\tp\ta\tpass\t1/1\n",
        ),
        ("", b"done\tp\ta\tpass\t1/1\ndone\tp\tb\tpass\t1/1\n"),
    ],
    report: b"\
        done\tp\ta\tpass\t1/1\n\
        done\tp\tb\tpass\t1/1\n\
        == final ==\n\
        status\t105\n\
        outcome failed setup-script\n\
        initial-run-count\t2\n\
        finished-count\t2\n\
        setup-scripts-initial-count\t1\n\
        setup-scripts-finished-count\t1\n\
        setup-scripts-passed\t0\n\
        setup-scripts-failed\t0\n\
        setup-scripts-exec-failed\t0\n\
        setup-scripts-timed-out\t1\n\
        passed\t2\n\
        passed-slow\t0\n\
        passed-timed-out\t0\n\
        flaky\t0\n\
        failed\t0\n\
        failed-slow\t0\n\
        failed-timed-out\t0\n\
        leaky\t0\n\
        leaky-failed\t0\n\
        exec-failed\t0\n\
        skipped\t0\n\
        failed-weight\t0\n\
        cancel-reason\t-\n\
        script\ts\ttimeout:pass\t-\t1\n",
    status: 105,
};

/// The limit ends what runs: rows/runs/limit-that-ends-what-runs.
pub const LIMIT_ENDS_WHAT_RUNS: Run = Run {
    stream: "\
        {\"workspace\":{\"packages\":[{\"id\":\"p\",\"name\":\"p\"}],\"links\":[],\"binaries\":[{\"id\":\"p\",\"name\":\"p\",\"package\":\"p\",\"kind\":\"lib\",\"platform\":\"target\",\"tests\":[\"a\",\"b\"]}]},\"sources\":[{\"kind\":\"explicit\",\"path\":\"nextest.toml\",\"text\":\"[profile.default]\\nfail-fast = { max-fail = 1, terminate = \\\"immediate\\\" }\\n\"}],\"current_version\":\"0.9.100\"}\n\
        start\tp\ta\n\
        start\tp\tb\n\
        end\tp\tb\tfail:1\t-\t1\t-\t-\n\
        end\tp\ta\tabort:15\t-\t1\t41\t-\n",
    told: &[
        (
            "end\tp\ta\tabort:15\t-\t1\t41\t-\n",
            b"done\tp\tb\tfail\t1/1\n",
        ),
        ("", b"done\tp\tb\tfail\t1/1\ndone\tp\ta\tfail\t1/1\n"),
    ],
    report: b"\
        done\tp\tb\tfail\t1/1\n\
        done\tp\ta\tfail\t1/1\n\
        == final ==\n\
        status\t100\n\
        outcome failed test 2 0\n\
        initial-run-count\t2\n\
        finished-count\t2\n\
        setup-scripts-initial-count\t0\n\
        setup-scripts-finished-count\t0\n\
        setup-scripts-passed\t0\n\
        setup-scripts-failed\t0\n\
        setup-scripts-exec-failed\t0\n\
        setup-scripts-timed-out\t0\n\
        passed\t0\n\
        passed-slow\t0\n\
        passed-timed-out\t0\n\
        flaky\t0\n\
        failed\t2\n\
        failed-slow\t0\n\
        failed-timed-out\t0\n\
        leaky\t0\n\
        leaky-failed\t0\n\
        exec-failed\t0\n\
        skipped\t0\n\
        failed-weight\t2\n\
        cancel-reason\ttest-failure-immediate\n\
        test\tp\tb\tfail\t1/1\n\
        try\t1\tfail:1\t-\t1\n",
    status: 100,
};

/// Of three tests one passes, one fails and tells of its error, one could not be started: a line of
/// the log tells several lines of the report.
pub const THREE_TESTS: Run = Run {
    stream: "\
        {\"workspace\":{\"packages\":[{\"id\":\"p\",\"name\":\"p\"}],\"links\":[],\"binaries\":[{\"id\":\"p\",\"name\":\"p\",\"package\":\"p\",\"kind\":\"lib\",\"platform\":\"target\",\"tests\":[\"a\",\"b\",\"c\"]}]},\"sources\":[],\"current_version\":\"0.9.100\"}\n\
        start\tp\tc\n\
        start\tp\tb\n\
        start\tp\ta\n\
        end\tp\tb\tpass\t-\t1\t-\t-\n\
        end\tp\ta\tfail:1\t-\t2\t78\t4572726f723a20650a\n\
        end\tp\tc\texec-fail\tslow\t3\t6e6f\t-\n",
    told: &[
        (
            "end\tp\ta\tfail:1\t-\t2\t78\t4572726f723a20650a\nend\tp\tc\texec-fail\tslow\t3\t6e6f\t-\n",
            b"done\tp\tb\tpass\t1/1\n",
        ),
        (
            "end\tp\tc\texec-fail\tslow\t3\t6e6f\t-\n",
            b"done\tp\tb\tpass\t1/1\ndone\tp\ta\tfail\t1/1\nout\t78\nerr\t4572726f723a20650a\nslice\terror\t0\t8\n",
        ),
        (
            "",
            b"done\tp\tb\tpass\t1/1\ndone\tp\ta\tfail\t1/1\nout\t78\nerr\t4572726f723a20650a\nslice\terror\t0\t8\ndone\tp\tc\tfail\t1/1\nerror\t6e6f\n",
        ),
    ],
    report: b"\
        done\tp\tb\tpass\t1/1\n\
        done\tp\ta\tfail\t1/1\n\
        out\t78\n\
        err\t4572726f723a20650a\n\
        slice\terror\t0\t8\n\
        done\tp\tc\tfail\t1/1\n\
        error\t6e6f\n\
        == final ==\n\
        status\t100\n\
        outcome failed test 3 0\n\
        initial-run-count\t3\n\
        finished-count\t3\n\
        setup-scripts-initial-count\t0\n\
        setup-scripts-finished-count\t0\n\
        setup-scripts-passed\t0\n\
        setup-scripts-failed\t0\n\
        setup-scripts-exec-failed\t0\n\
        setup-scripts-timed-out\t0\n\
        passed\t1\n\
        passed-slow\t0\n\
        passed-timed-out\t0\n\
        flaky\t0\n\
        failed\t1\n\
        failed-slow\t0\n\
        failed-timed-out\t0\n\
        leaky\t0\n\
        leaky-failed\t0\n\
        exec-failed\t1\n\
        skipped\t0\n\
        failed-weight\t2\n\
        cancel-reason\ttest-failure\n\
        test\tp\ta\tfail\t1/1\n\
        try\t1\tfail:1\t-\t2\n\
        test\tp\tc\tfail\t1/1\n\
        try\t1\texec-fail\tslow\t3\n",
    status: 100,
};

// Where a run ended, and its text.
use nextest_run_events_counters::{FinalRunStats, RunStats, RunStatsFailureKind};
use nextest_run_events_results::CancelReason;
use std::fmt;
use test_runner_core_line_syntax::reason_word;
use test_runner_core_run_model::exit_status;

/// Where a run ended. It prints as its part of the report: the exit status, the outcome, the
/// counters, and why the run was stopped.
#[derive(Clone, Copy, Debug, PartialEq, Eq)]
pub struct RunEnd {
    /// What the counters come to.
    pub outcome: FinalRunStats,
    /// The counters.
    pub stats: RunStats,
}

impl fmt::Display for RunEnd {
    ghost use Rattle.std.specs.Prelude.{Some};
    ghost use Rattle.test_runner_core_reporter.specs.RunEnd.{end_text};

    ghost output = { λ it. Some (end_text it) };

    fn fmt<W: fmt::Write>(&self, f: &mut fmt::Formatter<W>) -> fmt::Result {
        let status = NumberLine("status", exit_status(self.outcome) as usize);
        let outcome = OutcomeWords(self.outcome);
        let counters = CounterLines(self.stats);
        let reason = ReasonWords(self.stats.cancel_reason);
        write!(
            f,
            "== final ==\n{status}outcome {outcome}\n{counters}cancel-reason\t{reason}\n"
        )
    }
}

// What the counters come to, in words.
#[derive(Clone, Copy)]
struct OutcomeWords(FinalRunStats);

impl fmt::Display for OutcomeWords {
    ghost use Rattle.std.specs.Prelude.{Some};
    ghost use Rattle.test_runner_core_reporter.specs.RunEnd.{outcome_words};

    ghost output = { λ it. Some (outcome_words it.0) };

    fn fmt<W: fmt::Write>(&self, f: &mut fmt::Formatter<W>) -> fmt::Result {
        match self.0 {
            FinalRunStats::Success => write!(f, "success"),
            FinalRunStats::NoTestsRun => write!(f, "no-tests-run"),
            FinalRunStats::Cancelled { reason, kind } => {
                write!(f, "cancelled {} {}", StepWords(kind), ReasonWords(reason))
            }
            FinalRunStats::Failed { kind } => write!(f, "failed {}", StepWords(kind)),
        }
    }
}

// Where a run failed or was cut short, in words.
#[derive(Clone, Copy)]
struct StepWords(RunStatsFailureKind);

impl fmt::Display for StepWords {
    ghost use Rattle.std.specs.Prelude.{Some};
    ghost use Rattle.test_runner_core_reporter.specs.RunEnd.{step_words};

    ghost output = { λ it. Some (step_words it.0) };

    fn fmt<W: fmt::Write>(&self, f: &mut fmt::Formatter<W>) -> fmt::Result {
        match self.0 {
            RunStatsFailureKind::SetupScript => write!(f, "setup-script"),
            RunStatsFailureKind::Test {
                initial_run_count,
                not_run,
            } => write!(f, "test {initial_run_count} {not_run}"),
        }
    }
}

// A reason, or a dash where none stands.
#[derive(Clone, Copy)]
struct ReasonWords(Option<CancelReason>);

impl fmt::Display for ReasonWords {
    ghost use Rattle.std.specs.Prelude.{Some};
    ghost use Rattle.test_runner_core_reporter.specs.RunEnd.{reason_words};

    ghost output = { λ it. Some (reason_words it.0) };

    fn fmt<W: fmt::Write>(&self, f: &mut fmt::Formatter<W>) -> fmt::Result {
        f.write_str(match self.0 {
            Some(reason) => reason_word(reason),
            None => "-",
        })
    }
}

// A name and a number, on a line.
#[derive(Clone, Copy)]
struct NumberLine(&'static str, usize);

impl fmt::Display for NumberLine {
    ghost use Rattle.std.specs.Prelude.{Some};
    ghost use Rattle.test_runner_core_reporter.specs.RunEnd.{number_line};

    ghost output = { λ it. Some (number_line it.0.now it.1) };

    fn fmt<W: fmt::Write>(&self, f: &mut fmt::Formatter<W>) -> fmt::Result {
        write!(f, "{}\t{}\n", self.0, self.1)
    }
}

// The counters of setup scripts, a line each.
#[derive(Clone, Copy)]
struct ScriptLines(RunStats);

impl fmt::Display for ScriptLines {
    ghost use Rattle.std.specs.Prelude.{Some};
    ghost use Rattle.test_runner_core_reporter.specs.RunEnd.{script_lines};

    ghost output = { λ it. Some (script_lines it.0) };

    fn fmt<W: fmt::Write>(&self, f: &mut fmt::Formatter<W>) -> fmt::Result {
        let stats = self.0;
        let initial = NumberLine(
            "setup-scripts-initial-count",
            stats.setup_scripts_initial_count,
        );
        let finished = NumberLine(
            "setup-scripts-finished-count",
            stats.setup_scripts_finished_count,
        );
        let passed = NumberLine("setup-scripts-passed", stats.setup_scripts_passed);
        let failed = NumberLine("setup-scripts-failed", stats.setup_scripts_failed);
        let exec_failed = NumberLine("setup-scripts-exec-failed", stats.setup_scripts_exec_failed);
        let timed_out = NumberLine("setup-scripts-timed-out", stats.setup_scripts_timed_out);
        write!(
            f,
            "{initial}{finished}{passed}{failed}{exec_failed}{timed_out}"
        )
    }
}

// The counters of tests that passed, a line each.
#[derive(Clone, Copy)]
struct PassedLines(RunStats);

impl fmt::Display for PassedLines {
    ghost use Rattle.std.specs.Prelude.{Some};
    ghost use Rattle.test_runner_core_reporter.specs.RunEnd.{passed_lines};

    ghost output = { λ it. Some (passed_lines it.0) };

    fn fmt<W: fmt::Write>(&self, f: &mut fmt::Formatter<W>) -> fmt::Result {
        let stats = self.0;
        let passed = NumberLine("passed", stats.passed);
        let slow = NumberLine("passed-slow", stats.passed_slow);
        let timed_out = NumberLine("passed-timed-out", stats.passed_timed_out);
        let flaky = NumberLine("flaky", stats.flaky);
        write!(f, "{passed}{slow}{timed_out}{flaky}")
    }
}

// The counters of tests that failed or left handles open, a line each.
#[derive(Clone, Copy)]
struct FailedLines(RunStats);

impl fmt::Display for FailedLines {
    ghost use Rattle.std.specs.Prelude.{Some};
    ghost use Rattle.test_runner_core_reporter.specs.RunEnd.{failed_lines};

    ghost output = { λ it. Some (failed_lines it.0) };

    fn fmt<W: fmt::Write>(&self, f: &mut fmt::Formatter<W>) -> fmt::Result {
        let stats = self.0;
        let failed = NumberLine("failed", stats.failed);
        let slow = NumberLine("failed-slow", stats.failed_slow);
        let timed_out = NumberLine("failed-timed-out", stats.failed_timed_out);
        let leaky = NumberLine("leaky", stats.leaky);
        let leaky_failed = NumberLine("leaky-failed", stats.leaky_failed);
        let exec_failed = NumberLine("exec-failed", stats.exec_failed);
        write!(
            f,
            "{failed}{slow}{timed_out}{leaky}{leaky_failed}{exec_failed}"
        )
    }
}

// The counters in their order, a line each.
#[derive(Clone, Copy)]
struct CounterLines(RunStats);

impl fmt::Display for CounterLines {
    ghost use Rattle.std.specs.Prelude.{Some};
    ghost use Rattle.test_runner_core_reporter.specs.RunEnd.{counter_lines};

    ghost output = { λ it. Some (counter_lines it.0) };

    fn fmt<W: fmt::Write>(&self, f: &mut fmt::Formatter<W>) -> fmt::Result {
        let stats = self.0;
        let initial = NumberLine("initial-run-count", stats.initial_run_count);
        let finished = NumberLine("finished-count", stats.finished_count);
        let scripts = ScriptLines(stats);
        let passed = PassedLines(stats);
        let failed = FailedLines(stats);
        let skipped = NumberLine("skipped", stats.skipped);
        let weight = NumberLine("failed-weight", stats.failed_weight);
        write!(
            f,
            "{initial}{finished}{scripts}{passed}{failed}{skipped}{weight}"
        )
    }
}

// Elements of configurations: names, numbers, limits, durations.
use crate::page::{Page, Tell};
use crate::parts::{three, two};
use crate::values::{toml_value, word_as};
use crate::{ok, show, some};
use nextest_config_elements::{
    ConfigDuration, ConfigIdentifier, FailWeight, FlakyResult, MaxFail, NextestRunMode, TestGroup,
    TestPriority, ToolConfigFile, ToolName, deserialize_test_threads, deserialize_threads_required,
};
use nextest_text::{i32_of_decimal, u64_of_decimal};
use toml::Value;

// A type and a text: the number of that type that the text is in shortest decimal, if it is one.
pub(crate) fn decimals(page: &mut Page, input: &str) -> Option<()> {
    let (kind, text) = two(input, " ");
    match kind {
        "i32" => page.debug(i32_of_decimal(text)),
        "u64" => page.debug(u64_of_decimal(text)),
        _ => return None,
    }
    Some(())
}

// A text: the name of a tool that it is, or why it is none.
pub(crate) fn tool_names(page: &mut Page, input: &str) -> Option<()> {
    page.shown(ToolName::new(page.alloc, input));
    Some(())
}

// A text: `plain` and the identifier that it is, or `tool`, the tool and what is its own; or why it
// is none.
pub(crate) fn identifiers(page: &mut Page, input: &str) -> Option<()> {
    page.told(ConfigIdentifier::new(page.alloc, input));
    Some(())
}

impl Tell for ConfigIdentifier {
    fn tell(&self, page: &mut Page) {
        match self.tool_components() {
            Some((tool, own)) => show!(page; "tool ", tool, " ", own),
            None => show!(page; "plain ", self),
        }
    }
}

// A text: the tool and the file that it names, or why it names none.
pub(crate) fn tool_config_files(page: &mut Page, input: &str) -> Option<()> {
    page.told(ToolConfigFile::from_text(page.alloc, input));
    Some(())
}

impl Tell for ToolConfigFile {
    fn tell(&self, page: &mut Page) {
        show!(page; &self.tool, " ", &self.config_file);
    }
}

// A text: the group of tests that it names, `global`, or `custom` and its identifier; or why it
// names none.
pub(crate) fn test_groups(page: &mut Page, input: &str) -> Option<()> {
    page.told(TestGroup::from_text(page.alloc, input));
    Some(())
}

impl Tell for TestGroup {
    fn tell(&self, page: &mut Page) {
        match self {
            TestGroup::Global => page.show("global"),
            TestGroup::Custom(own) => show!(page; "custom ", own),
        }
    }
}

// A mode of runs by its name, nothing for the one where nothing is said: what it prints and whether
// benchmarks are run.
pub(crate) fn run_modes(page: &mut Page, input: &str) -> Option<()> {
    let mode = match input {
        "" => NextestRunMode::default(),
        "Test" => NextestRunMode::Test,
        _ => NextestRunMode::Benchmark,
    };
    show!(page; mode, ", benchmark ", mode.is_benchmark());
    Some(())
}

// A text: the nanoseconds of the duration that it is, or why it is none.
pub(crate) fn durations(page: &mut Page, input: &str) -> Option<()> {
    match ConfigDuration::parse(input) {
        Ok(duration) => page.show(duration.as_nanos()),
        Err(refusal) => page.show(refusal),
    }
    Some(())
}

// A text: the limit that it is, as it prints, and how a run stops there; or why it is none.
pub(crate) fn limits(page: &mut Page, input: &str) -> Option<()> {
    page.told(MaxFail::from_text(input));
    Some(())
}

impl Tell for MaxFail {
    fn tell(&self, page: &mut Page) {
        page.show(self);
        if let MaxFail::Count { terminate, .. } = self {
            show!(page; " ", terminate);
        }
    }
}

// A limit and what failing tests weigh together: how the run stops, or `-` where it goes on.
pub(crate) fn exceeded(page: &mut Page, input: &str) -> Option<()> {
    let (limit, failed_weight) = two(input, " ");
    let limit = ok!(MaxFail::from_text(limit));
    match limit.is_exceeded(page.size(failed_weight)) {
        Some(mode) => page.show(mode),
        None => page.show("-"),
    }
    Some(())
}

// What becomes of a flaky test, the attempt that it passed on, and how many there may be: what is
// told of its failure, or `-` where it passes.
pub(crate) fn flaky_messages(page: &mut Page, input: &str) -> Option<()> {
    let (rule, attempt, total) = three(input);
    let rule = some!(word_as::<FlakyResult>(page.alloc, rule));
    match rule.fail_message(page.alloc, page.number(attempt), page.number(total)) {
        Ok(Some(message)) => page.show(message),
        Ok(None) => page.show("-"),
        Err(_) => return None,
    }
    Some(())
}

// Numbers: the priorities of these numbers in their order; or why the first that is none is none.
pub(crate) fn priorities(page: &mut Page, input: &str) -> Option<()> {
    let mut priorities = Vec::new(page.alloc);
    for number in input.split_terminator(' ') {
        match TestPriority::new(ok!(number.parse::<i8>())) {
            Ok(priority) => ok!(priorities.push(priority)),
            Err(refusal) => {
                page.show(refusal);
                return Some(());
            }
        }
    }
    priorities.sort_unstable();
    page.tell_each(0, " ", priorities.as_slice());
    Some(())
}

impl Tell for TestPriority {
    fn tell(&self, page: &mut Page) {
        page.show(self.to_i8());
    }
}

// A number, or nothing where none is said: the fail weight that it is, and whether it is that where
// none is said; or why it is none.
pub(crate) fn fail_weights(page: &mut Page, input: &str) -> Option<()> {
    if input.is_empty() {
        FailWeight::default().tell(page);
    } else {
        page.told(FailWeight::new(ok!(input.parse::<u8>())));
    }
    Some(())
}

impl Tell for FailWeight {
    fn tell(&self, page: &mut Page) {
        show!(page; self.get(), ", default ", *self == FailWeight::default());
    }
}

// A setting as it stands in TOML and the number of processors, behind the word `test-threads`: how
// many tests run at a time. A setting, the number of tests that run at a time and the number of
// processors, behind `threads-required`: how many threads a test takes.
pub(crate) fn threads(page: &mut Page, input: &str) -> Option<()> {
    let (kind, setting, numbers) = three(input);
    let value = some!(toml_value(page.alloc, setting));
    number_of_threads(page, kind, &value, numbers)
}

fn number_of_threads(page: &mut Page, kind: &str, value: &Value, numbers: &str) -> Option<()> {
    match kind {
        "test-threads" => tests_at_a_time(page, value, numbers),
        "threads-required" => threads_of_a_test(page, value, numbers),
        _ => None,
    }
}

fn tests_at_a_time(page: &mut Page, value: &Value, processors: &str) -> Option<()> {
    let threads = ok!(deserialize_test_threads(page.alloc, value, &[]));
    let processors = page.size(processors);
    page.show(threads.compute(processors));
    Some(())
}

fn threads_of_a_test(page: &mut Page, value: &Value, numbers: &str) -> Option<()> {
    let (tests, processors) = two(numbers, " ");
    let threads = ok!(deserialize_threads_required(page.alloc, value, &[]));
    let (tests, processors) = (page.size(tests), page.size(processors));
    page.show(threads.compute(tests, processors));
    Some(())
}

// Calls that are made once more where there is no memory for them. A run of the program has memory
// enough; `scripts/failing_calls.py` lets each request for memory fail in turn.
use crate::page::Page;
use crate::parts::two;
use crate::{attempts, compiled, configs, plans, test_settings, verdicts};

/// What is written behind the answer of a call, and behind that of the one after it.
pub(crate) const TURNS: [&str; 2] = ["", " at the second call"];

/// What is written in front of an answer, where a call that had no memory changed what it was made
/// on.
pub(crate) const CHANGED: &str = "changed, ";

// A table or a call, and an input: the answer.
pub(crate) fn calls_again(page: &mut Page, input: &str) -> Option<()> {
    let (call, given) = two(input, " ");
    match call {
        "compiled" => compiled::compiled(page, given),
        "verdicts" => verdicts::verdicts(page, given),
        "loads" => configs::loads(page, given),
        "test_settings" => test_settings::test_settings(page, given),
        "accumulate" => verdicts::accumulate(page, given),
        "merge" => verdicts::merge(page, given),
        "reserve_one" => attempts::reserve_one(page, given),
        "start" => plans::start(page, given),
        _ => None,
    }
}

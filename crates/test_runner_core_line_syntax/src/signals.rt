// The numbers and names of signals, as a log tells them.
ghost use Rattle.std.specs.Prelude.{◌≡◌, ◌↔◌, IsTrue};
ghost use Rattle.nextest_run_events_results.specs.Signals.{signal_name};
ghost use Rattle.test_runner_core_line_syntax.specs.Spelling.{IsSignal};

use nextest_run_events_results::signal_name;
use nextest_text::Text;

/// Whether the number is one of a signal.
pub fn is_signal(number: i32) -> bool
    ensures { IsTrue result ↔ IsSignal number }
{
    number >= 1 && number <= 127
}

/// Whether the name is the one that the signal has, or none where it has none.
pub fn is_name_of(name: &Option<Text>, signal: i32) -> bool
    ensures { IsTrue result ↔ (name.now ≡ signal_name signal) }
{
    match signal_name(signal) {
        None => name.is_none(),
        Some(known) => match name {
            None => false,
            Some(name) => name.as_str() == known,
        },
    }
}

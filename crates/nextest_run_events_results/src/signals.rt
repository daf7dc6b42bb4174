// Signals of Unix by their names.
ghost use Rattle.std.specs.Prelude.{◌≡◌, option_map};
ghost use Rattle.nextest_run_events_results.specs.Signals.{signal_name};

/// The signal that asks a process to end.
pub const SIGTERM: i32 = 15;

/// The name of a signal without `SIG`; `None` for a number that names none of the usual ones.
pub fn signal_name(signal: i32) -> Option<&'static str>
    ensures { option_map (λ name. name.now) result ≡ signal_name signal }
{
    match signal {
        1 => Some("HUP"),
        2 => Some("INT"),
        3 => Some("QUIT"),
        4 => Some("ILL"),
        5 => Some("TRAP"),
        6 => Some("ABRT"),
        8 => Some("FPE"),
        9 => Some("KILL"),
        11 => Some("SEGV"),
        13 => Some("PIPE"),
        14 => Some("ALRM"),
        SIGTERM => Some("TERM"),
        _ => None,
    }
}

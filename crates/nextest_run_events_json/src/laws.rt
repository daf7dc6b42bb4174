//! What holds of every value that is written and read. Each function does nothing, and its contract
//! is the law.
ghost use Rattle.nextest_run_events_json.specs.Laws.{AbortReadBack, ErrorReadBack, FailureReadBack, ResultReadBack};

/// A written abort is read as itself.
pub fn abort_read_back()
    ensures { AbortReadBack }
{}

/// A written failure is read as itself.
pub fn failure_read_back()
    ensures { FailureReadBack }
{}

/// A written result is read as itself.
pub fn result_read_back()
    ensures { ResultReadBack }
{}

/// A written error is read as itself.
pub fn error_read_back()
    ensures { ErrorReadBack }
{}

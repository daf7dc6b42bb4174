//! What holds of every text of a report. Each function does nothing, and its contract is the law.
ghost use Rattle.test_runner_core_reporter.specs.Laws.{HaveOneText, HaveSomeText, KeepsBegin, KeepsFinal, KeepsForgetting, KeepsProgress, KeepsRefusals, KeepsStatus};

/// Parts of a report have one text: they determine it, and it can't be that they have none.
pub fn one_text()
    ensures one { HaveOneText }
    ensures some { HaveSomeText }
{}

/// What `judge` keeps of a run is enough: without what was written by successes that are never
/// shown, and by tests that are finished and whose outputs the final text won't have, it takes and
/// refuses the steps of the run, each step and the final text have the same texts, and the exit
/// status is the same.
pub fn kept_is_enough()
    ensures begin { KeepsBegin }
    ensures progress { KeepsProgress }
    ensures refusals { KeepsRefusals }
    ensures forgetting { KeepsForgetting }
    ensures final_text { KeepsFinal }
    ensures status { KeepsStatus }
{}

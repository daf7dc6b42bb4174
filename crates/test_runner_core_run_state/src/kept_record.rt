// A record in less memory.
ghost use Rattle.std.specs.Prelude.{◌≡◌, None, IfNone, IfOk, IfSome};
ghost use Rattle.std.specs.Bool.{OnTrue};
ghost use Rattle.nextest_run_events_results.specs.Result.{is_success};
ghost use Rattle.nextest_run_events_results.specs.declared.record.RecordOutput.TheVariants as wrote;
ghost use Rattle.nextest_run_events_results.specs.declared.result.ExecutionResultDescription.TheVariants as ended;
ghost use Rattle.test_runner_core_run_state.specs.Records.{unwritten};
ghost use Rattle.test_runner_core_run_state.specs.Short.{record_kept};

use nextest_run_events_results::{ExecutionResultDescription, Record, RecordOutput};
use std::alloc::{AllocError, Global};
use std::marker::Model;

/// A record in less memory: that of a pass without outputs is its slowness and its time. In a
/// clause it is the record.
#[derive(Drop)]
pub struct KeptRecord {
    record: ShortRecord,
}

// A record.
#[derive(Drop)]
pub(crate) enum ShortRecord {
    // A pass of which no stream was captured.
    Passed {
        // Whether it was slow.
        slow: bool,
        // How long it took, in nanoseconds.
        nanos: u64,
    },
    // Any other.
    Whole(Box<Record>),
}

impl Model for KeptRecord {
    ghost use Rattle.nextest_run_events_results.specs.declared.record.Record.{Record};
    ghost use Rattle.test_runner_core_run_state.specs.Short.{record_kept};

    ghost Value = { Record };

    ghost view = { λ k. record_kept k.record };
}

impl KeptRecord {
    /// The record. It fails only on allocation, and not where it is that of a pass without outputs.
    pub fn new(alloc: Global, ending: Record) -> Result<KeptRecord, AllocError>
        ensures { IfOk result (λ kept. kept ≡ ending) }
    {
        let record = if is_short(&ending) {
            ShortRecord::Passed {
                slow: ending.slow,
                nanos: ending.nanos,
            }
        } else {
            ShortRecord::Whole(Box::new(alloc, ending)?)
        };
        Ok(KeptRecord { record })
    }

    /// The record, lent; `None` where it is that of a pass without outputs.
    pub fn whole(&self) -> Option<&Record>
        ensures whole { IfSome result (λ lent. lent.now ≡ self.now) }
        ensures passed { IfNone result (self.now.result ≡ ended.Pass) }
        ensures unwritten { IfNone result (self.now.output ≡ wrote.Streams None None) }
    {
        match &self.record {
            ShortRecord::Passed { .. } => None,
            ShortRecord::Whole(whole) => Some(whole),
        }
    }

    /// Whether the attempt was slow.
    pub fn slow(&self) -> bool
        ensures { result ≡ self.now.slow }
    {
        match &self.record {
            ShortRecord::Passed { slow, .. } => *slow,
            ShortRecord::Whole(whole) => whole.slow,
        }
    }

    /// How long it took, in nanoseconds.
    pub fn nanos(&self) -> u64
        ensures { result ≡ self.now.nanos }
    {
        match &self.record {
            ShortRecord::Passed { nanos, .. } => *nanos,
            ShortRecord::Whole(whole) => whole.nanos,
        }
    }

    /// Whether it is a success.
    pub fn is_success(&self) -> bool
        ensures { result ≡ is_success self.now.result }
    {
        match self.whole() {
            Some(whole) => whole.result.is_success(),
            None => true,
        }
    }

    // Forgets what it wrote.
    pub(crate) fn forget_output(&mut self)
        ensures { self.new ≡ unwritten self.old }
    {
        forget_in(&mut self.record);
    }
}

impl Clone for KeptRecord {
    ghost use Rattle.std.specs.Prelude.{◌≡◌};

    ghost is_clone = { λ original copy. copy ≡ original };

    fn clone(&self) -> Result<KeptRecord, AllocError> {
        Ok(KeptRecord {
            record: copy_in(&self.record)?,
        })
    }
}

// A copy of a record.
fn copy_in(kept: &ShortRecord) -> Result<ShortRecord, AllocError>
    ensures { IfOk result (λ copy. record_kept copy ≡ record_kept kept.now) }
{
    match kept {
        ShortRecord::Passed { slow, nanos } => Ok(ShortRecord::Passed {
            slow: *slow,
            nanos: *nanos,
        }),
        ShortRecord::Whole(whole) => Ok(ShortRecord::Whole(whole.clone()?)),
    }
}

// Whether a record is that of a pass without outputs.
fn is_short(ending: &Record) -> bool
    ensures passed { OnTrue result (ending.now.result ≡ ended.Pass) }
    ensures unwritten { OnTrue result (ending.now.output ≡ wrote.Streams None None) }
{
    match (&ending.result, &ending.output) {
        (
            ExecutionResultDescription::Pass,
            RecordOutput::Streams {
                out: None,
                err: None,
            },
        ) => true,
        _ => false,
    }
}

// Forgets what an attempt wrote.
fn forget_in(kept: &mut ShortRecord)
    ensures { record_kept kept.new ≡ unwritten (record_kept kept.old) }
{
    match kept {
        ShortRecord::Passed { .. } => {}
        ShortRecord::Whole(whole) => {
            whole.output = RecordOutput::Streams {
                out: None,
                err: None,
            };
        }
    }
}

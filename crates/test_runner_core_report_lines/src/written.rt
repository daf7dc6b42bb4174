// What an attempt or a script wrote, lent.
ghost use Rattle.std.specs.Prelude.{◌≡◌, option_copied};
ghost use Rattle.test_runner_core_run_state.specs.Statuses.{record_output_of};
ghost use Rattle.test_runner_core_report_lines.specs.Texts.{err_of, out_of};
ghost use Rattle.test_runner_core_report_lines.specs.Written.{written_meant};

use nextest_run_events_outputs::{
    ChildExecutionOutputDescription, ChildOutputDescription, ChildSingleOutput,
    ChildStartErrorDescription, LiveSpec,
};
use nextest_run_events_results::RecordOutput;
use nextest_text::Listing;
use test_runner_core_run_state::KeptRecord;

// What an attempt or a script wrote, or why it could not be started, as a record or a status lends
// it.
#[derive(Clone, Copy)]
pub(crate) enum Written<'s> {
    // What it wrote, of each stream that was captured.
    Streams {
        // To standard output. Both streams in one count as that.
        out: Option<&'s [u8]>,
        // To standard error.
        err: Option<&'s [u8]>,
    },
    // Why it could not be started.
    Message(&'s str),
}

impl<'s> Written<'s> {
    // What a record has.
    pub(crate) fn in_record(ended: &'s KeptRecord) -> Written<'s>
        ensures { written_meant result ≡ ended.now.output }
    {
        match ended.whole() {
            Some(whole) => Written::in_output(&whole.output),
            None => Written::Streams {
                out: None,
                err: None,
            },
        }
    }

    // What an output has.
    fn in_output(output: &'s RecordOutput) -> Written<'s>
        ensures { written_meant result ≡ output.now }
    {
        match output {
            RecordOutput::Streams { out, err } => Written::Streams {
                out: lent(out),
                err: lent(err),
            },
            RecordOutput::Message(message) => Written::Message(message.as_str()),
        }
    }

    // What the output of a status has.
    pub(crate) fn in_status(output: &'s ChildExecutionOutputDescription<LiveSpec>) -> Written<'s>
        ensures { written_meant result ≡ record_output_of output.now }
    {
        match output {
            ChildExecutionOutputDescription::Output { output, .. } => match output {
                ChildOutputDescription::Split { stdout, stderr } => Written::Streams {
                    out: buffer(stdout),
                    err: buffer(stderr),
                },
                ChildOutputDescription::Combined { output } => Written::Streams {
                    out: Some(output.buf()),
                    err: None,
                },
                ChildOutputDescription::NotLoaded => Written::Streams {
                    out: None,
                    err: None,
                },
            },
            ChildExecutionOutputDescription::StartError(error) => match error {
                ChildStartErrorDescription::TempPath { source }
                | ChildStartErrorDescription::Spawn { source } => {
                    Written::Message(source.message())
                }
            },
        }
    }

    // What was written to standard output, where it was captured.
    pub(crate) fn out(self) -> Option<&'s [u8]>
        ensures { option_copied result ≡ out_of (written_meant self.entry) }
    {
        match self {
            Written::Streams { out, .. } => out,
            Written::Message(_) => None,
        }
    }

    // What was written to standard error, where it was captured.
    pub(crate) fn err(self) -> Option<&'s [u8]>
        ensures { option_copied result ≡ err_of (written_meant self.entry) }
    {
        match self {
            Written::Streams { err, .. } => err,
            Written::Message(_) => None,
        }
    }
}

// The bytes of a stream of a record, lent.
fn lent(stream: &Option<Listing<u8>>) -> Option<&[u8]>
    ensures { option_copied result ≡ stream.now }
{
    match stream {
        Some(bytes) => Some(bytes.as_slice()),
        None => None,
    }
}

// The bytes of a stream of a status, lent.
fn buffer(stream: &Option<ChildSingleOutput>) -> Option<&[u8]>
    ensures { option_copied result ≡ stream.now }
{
    match stream {
        Some(output) => Some(output.buf()),
        None => None,
    }
}

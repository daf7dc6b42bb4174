// An event whose texts still stand in their line, so that it takes no memory.
ghost use Rattle.std.specs.Prelude.{◌≡◌, IfOk, IsErr};
ghost use Rattle.test_runner_core_line_syntax.specs.Lent.{stream_meant, output_meant, record_meant, line_meant};
ghost use Rattle.test_runner_core_line_syntax.specs.Reading.{HasTexts, LendsLine};

use super::hex_digits::HexDigits;
use super::hex_text::HexText;
use super::log_line::LogLine;
use super::reading::lent_of;
use super::spelling_error::SpellingError;
use nextest_run_events_results::{
    CancelReason, ExecutionResult, ExecutionResultDescription, Record, RecordOutput,
};
use nextest_text::{Listing, Text};
use std::alloc::{AllocError, Global};

/// What an OUT or an ERR field says.
#[derive(Clone, Copy)]
pub enum LentStream<'a> {
    /// The stream was not captured.
    NotCaptured,
    /// The stream was captured: its bytes.
    Captured(HexDigits<'a>),
}

/// What OUT and ERR say together.
#[derive(Clone, Copy)]
pub enum LentOutput<'a> {
    /// What was written.
    Streams {
        /// To standard output.
        out: LentStream<'a>,
        /// To standard error.
        err: LentStream<'a>,
    },
    /// Why it could not be started.
    Message(HexText<'a>),
}

/// What the fields of a record say.
#[derive(Clone, Copy)]
pub struct LentRecord<'a> {
    /// How it ended.
    pub result: ExecutionResult,
    /// Whether it was slow.
    pub slow: bool,
    /// How long it took, in nanoseconds.
    pub nanos: u64,
    /// What it wrote, or why it could not be started.
    pub output: LentOutput<'a>,
}

/// What a line says, its texts lent.
#[derive(Clone, Copy)]
pub enum LentLine<'a> {
    /// A setup script ended.
    Script {
        /// The script's id.
        id: &'a str,
        /// How it ended.
        record: LentRecord<'a>,
    },
    /// An attempt of a test started.
    Start {
        /// The id of the test's binary.
        binary: &'a str,
        /// The test's name.
        name: &'a str,
    },
    /// The attempt of a test that ran ended.
    End {
        /// The id of the test's binary.
        binary: &'a str,
        /// The test's name.
        name: &'a str,
        /// How it ended.
        record: LentRecord<'a>,
    },
    /// The run was told to stop.
    Stop {
        /// Why.
        reason: CancelReason,
    },
}

impl LentStream<'_> {
    /// The stream that is meant. It fails only on allocation.
    pub fn own(self, alloc: Global) -> Result<Option<Listing<u8>>, AllocError>
        ensures { IfOk result (λ stream. stream ≡ stream_meant self.entry) }
    {
        match self {
            LentStream::NotCaptured => Ok(None),
            LentStream::Captured(hex) => Ok(Some(Listing::from(hex.decode(alloc)?))),
        }
    }
}

impl LentOutput<'_> {
    /// The output that is meant. It fails only on allocation.
    pub fn own(self, alloc: Global) -> Result<RecordOutput, AllocError>
        ensures { IfOk result (λ output. output ≡ output_meant self.entry) }
    {
        match self {
            LentOutput::Streams { out, err } => Ok(RecordOutput::Streams {
                out: out.own(alloc)?,
                err: err.own(alloc)?,
            }),
            LentOutput::Message(text) => Ok(RecordOutput::Message(text.decode(alloc)?)),
        }
    }
}

impl LentRecord<'_> {
    /// The record that is meant. It fails only on allocation.
    pub fn own(self, alloc: Global) -> Result<Record, AllocError>
        ensures { IfOk result (λ told. told ≡ record_meant self.entry) }
    {
        Ok(Record {
            result: ExecutionResultDescription::from_result(alloc, self.result)?,
            slow: self.slow,
            nanos: self.nanos,
            output: self.output.own(alloc)?,
        })
    }
}

impl<'a> LentLine<'a> {
    /// Reads a line, its line feed left aside, without memory: the event that it spells, or `None`
    /// for the empty line. A line that isn't UTF-8 is refused as that, and any other that spells no
    /// event as bad.
    pub fn parse(bytes: &'a [u8]) -> Result<Option<LentLine<'a>>, SpellingError>
        ensures { LendsLine bytes.now result }
    {
        lent_of(bytes)
    }

    /// The event that is meant, with texts of its own. It fails only on allocation, and not where
    /// the event has no texts.
    pub fn own(self, alloc: Global) -> Result<LogLine, AllocError>
        ensures meant { IfOk result (λ line. line ≡ line_meant self.entry) }
        ensures memory { IsErr result → HasTexts (line_meant self.entry) }
    {
        Ok(match self {
            LentLine::Script { id, record } => LogLine::Script {
                id: Text::from_str(alloc, id)?,
                record: record.own(alloc)?,
            },
            LentLine::Start { binary, name } => LogLine::Start {
                binary: Text::from_str(alloc, binary)?,
                name: Text::from_str(alloc, name)?,
            },
            LentLine::End {
                binary,
                name,
                record,
            } => LogLine::End {
                binary: Text::from_str(alloc, binary)?,
                name: Text::from_str(alloc, name)?,
                record: record.own(alloc)?,
            },
            LentLine::Stop { reason } => LogLine::Stop { reason },
        })
    }
}

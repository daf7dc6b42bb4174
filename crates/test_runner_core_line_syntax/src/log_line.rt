// The event of a line.
ghost use Rattle.std.specs.Prelude.{◌≡◌, ◌↔◌, IsTrue, IfOk, IsErrOf, string_bytes};
ghost use Rattle.test_runner_core_line_syntax.specs.Spelling.{Spells, HasSpelling};
ghost use Rattle.test_runner_core_line_syntax.specs.Reading.{ReadsLine, SpellsTexts};

use super::lent::LentLine;
use super::parse_line_error::ParseLineError;
use super::reasons::reason_word;
use super::writing::{are_fields, is_field, push_field, push_record, record_is_spellable};
use nextest_run_events_results::{CancelReason, Record};
use nextest_text::Text;
use std::alloc::{AllocError, Global};

/// What a line of a log says.
#[derive(Clone, Debug, PartialEq, Eq)]
pub enum LogLine {
    /// A setup script ended.
    Script {
        /// The script's id.
        id: Text,
        /// How it ended.
        record: Record,
    },
    /// An attempt of a test started.
    Start {
        /// The id of the test's binary.
        binary: Text,
        /// The test's name.
        name: Text,
    },
    /// The attempt of a test that ran ended.
    End {
        /// The id of the test's binary.
        binary: Text,
        /// The test's name.
        name: Text,
        /// How it ended.
        record: Record,
    },
    /// The run was told to stop.
    Stop {
        /// Why.
        reason: CancelReason,
    },
}

// One call drops it, whoever holds it.
impl Drop for LogLine {
    fn drop(self) {
        match self {
            Self::Script { id: _, record: _ } => {}
            Self::Start { binary: _, name: _ } => {}
            Self::End {
                binary: _,
                name: _,
                record: _,
            } => {}
            Self::Stop { reason: _ } => {}
        }
    }
}

impl LogLine {
    /// Reads a line, its line feed left aside: the event that it spells, or `None` for the empty
    /// line.
    ///
    /// A line that isn't UTF-8 is refused as that, whatever else is wrong with it, and any other
    /// that spells no event as bad. Memory is needed only for the texts of an event that is
    /// spelled, and so not for a stop.
    pub fn parse(alloc: Global, bytes: &[u8]) -> Result<Option<LogLine>, ParseLineError>
        ensures exact { ReadsLine bytes.now result }

        // An event that is spelled is the one that is read.
        ensures only { (line : LogLine) → Spells line bytes.now
            → IfOk result (λ found. found ≡ Some line) }
        ensures memory { IsErrOf result ParseLineError.OutOfMemory → SpellsTexts bytes.now }
    {
        line_of(alloc, bytes)
    }

    /// Whether some line spells the event, which is what `print` requires.
    pub fn has_spelling(&self) -> bool
        ensures { IsTrue result ↔ HasSpelling self.now }
    {
        match self {
            LogLine::Script { id, record } => is_field(id.as_str()) && record_is_spellable(record),
            LogLine::Start { binary, name } => are_fields(binary.as_str(), name.as_str()),
            LogLine::End {
                binary,
                name,
                record,
            } => are_fields(binary.as_str(), name.as_str()) && record_is_spellable(record),
            LogLine::Stop { reason } => !reason.is_inner(),
        }
    }

    /// The line that spells the event, with no line feed at its end. It fails only on allocation.
    pub fn print(&self, alloc: Global) -> Result<String, AllocError>
        requires { HasSpelling self.now }
        ensures { IfOk result (λ text. Spells self.now (string_bytes text)) }
    {
        match self {
            LogLine::Script { id, record } => {
                let mut line = String::from_str(alloc, "script")?;
                push_field(&mut line, id.as_str())?;
                push_record(alloc, &mut line, record)?;
                Ok(line)
            }
            LogLine::Start { binary, name } => {
                let mut line = String::from_str(alloc, "start")?;
                push_field(&mut line, binary.as_str())?;
                push_field(&mut line, name.as_str())?;
                Ok(line)
            }
            LogLine::End {
                binary,
                name,
                record,
            } => {
                let mut line = String::from_str(alloc, "end")?;
                push_field(&mut line, binary.as_str())?;
                push_field(&mut line, name.as_str())?;
                push_record(alloc, &mut line, record)?;
                Ok(line)
            }
            LogLine::Stop { reason } => {
                let mut line = String::from_str(alloc, "stop")?;
                push_field(&mut line, reason_word(*reason))?;
                Ok(line)
            }
        }
    }
}

// The event of a line, with texts of its own.
fn line_of(alloc: Global, bytes: &[u8]) -> Result<Option<LogLine>, ParseLineError>
    ensures exact { ReadsLine bytes.now result }
    ensures memory { IsErrOf result ParseLineError.OutOfMemory → SpellsTexts bytes.now }
{
    match LentLine::parse(bytes)? {
        Some(line) => Ok(Some(line.own(alloc)?)),
        None => Ok(None),
    }
}

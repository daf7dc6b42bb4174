// What a command runs.
ghost use Rattle.std.specs.Prelude.{◌≡◌};
ghost use Rattle.toml.specs.View.{view};
ghost use Rattle.nextest_config_elements_toml.specs.Paths.{Gives};
ghost use Rattle.nextest_config_resolution_commands.specs.Commands as read;

use crate::words::split_words;
use nextest_config_elements_deserialize::{DeserializeValue, deserialize_texts};
use nextest_config_elements_toml::{ValueError, refused};
use nextest_text::{Listing, Text};
use std::alloc::Global;
use toml::Value;

// What a command runs.
#[derive(Drop)]
pub(crate) struct CommandLine {
    // The program, as it is written.
    pub(crate) program: Text,
    // What it is called with.
    pub(crate) args: Listing<Text>,
}

impl DeserializeValue for CommandLine {
    ghost reading = { read.line_in };

    fn deserialize(alloc: Global, value: &Value, path: &[&str]) -> Result<CommandLine, ValueError> {
        line_in(alloc, value, path)
    }
}

// The words of a text, or of a list of texts.
pub(crate) fn line_in(
    alloc: Global,
    value: &Value,
    path: &[&str],
) -> Result<CommandLine, ValueError>
    ensures { Gives path.now result (read.line_in (view value.now)) }
{
    match value {
        Value::String(text) => {
            let words = split_words(alloc, text.as_str())?;
            accepted_line(alloc, value, path, words)
        }
        Value::Array(_) => {
            let words = deserialize_texts(alloc, value, path)?;
            accepted_line(alloc, value, path, Some(words))
        }
        _ => {
            let expected = "a command: a string or an array of strings";
            Err(refused(alloc, path, Some(value), expected))
        }
    }
}

// What the words of a value run.
fn accepted_line(
    alloc: Global,
    value: &Value,
    path: &[&str],
    words: Option<Listing<Text>>,
) -> Result<CommandLine, ValueError>
    ensures { Gives path.now result (read.accepted_line words) }
{
    if let Some(words) = words {
        if let Some(line) = line_of(words) {
            return Ok(line);
        }
    }
    let expected = "a command of at least one word, with each quote closed";
    Err(refused(alloc, path, Some(value), expected))
}

// The first word is the program.
fn line_of(words: Listing<Text>) -> Option<CommandLine>
    ensures { result ≡ read.line_of words }
{
    let mut args = Vec::from(words);
    if args.is_empty() {
        return None;
    }
    let program = args.remove(0);
    Some(CommandLine {
        program,
        args: Listing::from(args),
    })
}

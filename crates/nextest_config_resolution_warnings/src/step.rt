// How a value is come to.
ghost use Rattle.std.specs.Prelude.{◌≡◌, IfOk};
ghost use Rattle.nextest_config_resolution_warnings.specs.Steps.{path_of, text_of};
ghost use Rattle.nextest_config_resolution_warnings.specs.Unknown.{key_path};

use nextest_config_elements_toml::KeyPath;
use nextest_text::{Listing, Text};
use std::alloc::{AllocError, Global};

// A step on the way to a value: to a key of a table, or to a position of a list.
#[derive(Clone, Copy)]
pub(crate) enum KeyStep<'a> {
    Key(&'a str),
    Position(usize),
}

// The key that a step is in a path.
fn text_of(alloc: Global, step: KeyStep<'_>) -> Result<Text, AllocError>
    ensures { IfOk result (λ text. text ≡ text_of step.entry) }
{
    match step {
        KeyStep::Key(key) => Text::from_str(alloc, key),
        KeyStep::Position(position) => Ok(Text::from(format!(in alloc; "{position}")?)),
    }
}

// The path that steps make.
pub(crate) fn key_path(alloc: Global, steps: &[KeyStep<'_>]) -> Result<KeyPath, AllocError>
    ensures { IfOk result (λ path. path ≡ key_path (path_of steps.now)) }
{
    let mut keys = Listing::new(alloc);
    for step in steps {
        keys.push(text_of(alloc, *step)?)?;
    }
    Ok(KeyPath { keys })
}

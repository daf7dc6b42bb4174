// The path of a part.
ghost use Rattle.std.specs.Prelude.{◌≡◌, [], ◌∷◌, ◌++◌, IfOk, if◌then◌else◌, map, reverse, string_bytes};
ghost use Rattle.std.specs.List.{join_with_byte};
ghost use Rattle.nextest_json.specs.Paths.{step_text};

use nextest_text::Text;
use std::alloc::{AllocError, Global};
use std::fmt;
use std::marker::Model;

/// One step of a path.
#[derive(Clone, Copy)]
pub enum PathStep {
    /// The name of a member.
    Name(&'static str),
    /// A position in a list, from 0.
    Position(usize),
}

/// The path of a part. In a clause it is its steps, each as a text, the outermost first.
#[derive(Drop)]
pub struct Steps {
    // the innermost first
    steps: Vec<PathStep>,
}

impl Model for Steps {
    ghost use Rattle.std.specs.Prelude.{List, ℕ, map, reverse};
    ghost use Rattle.nextest_json.specs.Paths.{step_text};

    ghost Value = { List (List ℕ) };

    ghost view = { λ s. reverse (map step_text s.steps.items) };
}

impl fmt::Display for PathStep {
    ghost use Rattle.std.specs.Prelude.{Some};
    ghost use Rattle.nextest_json.specs.Paths.{step_text};

    ghost output = { λ step. Some (step_text step) };

    fn fmt<W: fmt::Write>(&self, f: &mut fmt::Formatter<W>) -> fmt::Result {
        match self {
            PathStep::Name(name) => write!(f, "{name}"),
            PathStep::Position(position) => write!(f, "{position}"),
        }
    }
}

impl Steps {
    /// The path of the whole itself.
    pub fn new(alloc: Global) -> Steps
        ensures { result ≡ [] }
    {
        Steps {
            steps: Vec::new(alloc),
        }
    }

    /// The same path, one step further out. It fails only on allocation.
    pub fn below(self, step: PathStep) -> Result<Steps, AllocError>
        ensures { IfOk result (λ steps. steps ≡ step_text step ∷ self) }
    {
        let Steps { mut steps } = self;
        steps.push(step)?;
        Ok(Steps { steps })
    }

    /// The steps, joined by dots. It fails only on allocation.
    pub fn dotted(&self, alloc: Global) -> Result<Text, AllocError>
        ensures { IfOk result (λ text. text ≡ join_with_byte 46 self.now) }
    {
        dotted(alloc, self.steps.as_slice())
    }
}

// Steps, joined by dots, the last of them first.
fn dotted(alloc: Global, steps: &[PathStep]) -> Result<Text, AllocError>
    ensures { IfOk result (λ text. text ≡ join_with_byte 46 (reverse (map step_text steps.now))) }
{
    let mut text = String::new(alloc);
    for (place, step) in steps.iter().enumerate() {
        text = in_front(alloc, *step, place == 0, text.as_str())?;
    }
    Ok(Text::from(text))
}

// A step in front of a path, of which it may be the last.
fn in_front(alloc: Global, step: PathStep, is_last: bool, rest: &str) -> Result<String, AllocError>
    ensures { IfOk result (λ text. string_bytes text
        ≡ (if is_last then step_text step else step_text step ++ 46 ∷ rest.now)) }
{
    if is_last {
        format!(in alloc; "{step}")
    } else {
        format!(in alloc; "{step}.{rest}")
    }
}

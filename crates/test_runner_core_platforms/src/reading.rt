// What was read of a condition so far.
ghost use Rattle.std.specs.Prelude.{◌≡◌, ◌≤◌, ◌↔◌, [], length, IfOk, IsTrue};
ghost use Rattle.test_runner_core_platforms.specs.Flat.{IsFlat};
ghost use Rattle.test_runner_core_platforms.specs.Waiting.{Adds, Closes, Enters, FindsSign};

use crate::condition::Condition;
use crate::opened::{Opened, OpenedStack, Operation};
use crate::part::Part;
use crate::span::token;
use std::alloc::{AllocError, Global};

/// What was read of a condition so far: the parts of whole conditions, and the operations whose `)`
/// wasn't read yet.
#[derive(Drop)]
pub(crate) struct Reading {
    opened: OpenedStack,
    parts: Vec<Part>,
}

impl Reading {
    /// Where nothing was read. It takes no memory.
    pub(crate) fn new(alloc: Global) -> Reading
        ensures opened { result.opened ≡ [] }
        ensures parts { result.parts.items ≡ [] }
    {
        Reading {
            opened: OpenedStack::new(alloc),
            parts: Vec::new(alloc),
        }
    }

    /// An operation was opened, up to its `(`.
    pub(crate) fn enter(&mut self, operation: Operation) -> Result<(), AllocError>
        ensures { IfOk result (λ _. Enters operation self.old self.new) }
    {
        let before = self.parts.len();
        self.opened.push(Opened { operation, before })
    }

    /// A part was read.
    pub(crate) fn push(&mut self, part: Part) -> Result<(), AllocError>
        ensures { IfOk result (λ _. Adds part self.old self.new) }
    {
        Ok(self.parts.push(part)?)
    }

    /// The `)` of the innermost operation was read.
    pub(crate) fn close(&mut self) -> Result<(), AllocError>
        requires some { 1 ≤ length self.old.opened }
        ensures { IfOk result (λ _. Closes self.old self.new) }
    {
        match self.opened.pop() {
            Some(opened) => {
                let inside = self.parts.len().saturating_sub(opened.before);
                Ok(self.parts.push(opened.operation.part(inside))?)
            }
            None => unreachable!(),
        }
    }

    /// Whether no operation is open.
    pub(crate) fn is_whole(&self) -> bool
        ensures { IsTrue result ↔ self.now.opened ≡ [] }
    {
        self.opened.innermost().is_none()
    }

    /// What follows a sign that comes next and may stand only between the parentheses of an `all`
    /// or an `any`; `None` where neither of these is the innermost operation.
    pub(crate) fn sign<'i>(&self, text: &'i str, sign: &str) -> Option<&'i str>
        ensures { FindsSign self.now.opened sign.now text.now result }
    {
        match self.opened.innermost() {
            Some(Operation::Joined(_)) => token(text, sign),
            Some(Operation::Not) | None => None,
        }
    }

    /// The condition whose parts were read.
    pub(crate) fn into_condition(self) -> Condition
        requires flat { IsFlat self.parts.items }
        ensures { result ≡ self.parts.items }
    {
        let Reading { opened: _, parts } = self;
        Condition::of_parts(parts)
    }
}

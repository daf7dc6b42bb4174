// Operations whose `)` wasn't read yet.
ghost use Rattle.std.specs.Prelude.{◌≡◌, [], ◌∷◌, IfOk, IfSome, IfNone};
ghost use Rattle.test_runner_core_platforms.specs.Opened.{innermost_of, part_of};

use crate::part::{Joint, Part};
use std::alloc::{AllocError, Global};
use std::marker::Model;

/// What a name with a `(` behind it opens.
#[derive(Clone, Copy)]
pub(crate) enum Operation {
    /// `not(`
    Not,
    /// `all(` or `any(`
    Joined(Joint),
}

impl Operation {
    /// It as a part, which that many parts before it belong to.
    pub(crate) fn part(self, inside: usize) -> Part
        ensures { result ≡ part_of self inside }
    {
        match self {
            Operation::Not => Part::Not(inside),
            Operation::Joined(joint) => Part::Joined(joint, inside),
        }
    }
}

/// An operation whose `)` wasn't read yet, and how many parts were read before it.
#[derive(Clone, Copy)]
pub(crate) struct Opened {
    /// The operation.
    pub(crate) operation: Operation,
    /// How many parts were read before it.
    pub(crate) before: usize,
}

/// Operations whose `)` wasn't read yet, one within another. In a clause they are a list, the
/// innermost one first.
#[derive(Drop)]
pub(crate) struct OpenedStack {
    items: Vec<Opened>,
}

impl Model for OpenedStack {
    ghost use Rattle.std.specs.Prelude.{List, reverse};
    ghost use Rattle.test_runner_core_platforms.specs.declared.opened.Opened.{Opened};

    ghost Value = { List Opened };

    ghost view = { λ it. reverse it.items.items };
}

impl OpenedStack {
    /// Where none is open. It takes no memory.
    pub(crate) fn new(alloc: Global) -> OpenedStack
        ensures { result ≡ [] }
    {
        OpenedStack {
            items: Vec::new(alloc),
        }
    }

    /// One more is open.
    pub(crate) fn push(&mut self, opened: Opened) -> Result<(), AllocError>
        ensures { IfOk result (λ _. self.new ≡ opened ∷ self.old) }
    {
        Ok(self.items.push(opened)?)
    }

    /// Takes off the innermost one.
    pub(crate) fn pop(&mut self) -> Option<Opened>
        ensures some { IfSome result (λ opened. self.old ≡ opened ∷ self.new) }
        ensures none { IfNone result (self.old ≡ []) }
    {
        self.items.pop()
    }

    /// The innermost one.
    pub(crate) fn innermost(&self) -> Option<Operation>
        ensures { result ≡ innermost_of self.now }
    {
        match self.items.last() {
            Some(opened) => Some(opened.operation),
            None => None,
        }
    }
}

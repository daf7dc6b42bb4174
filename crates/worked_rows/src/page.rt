// The page that an answer is written on.
use std::alloc::Global;
use std::fmt;
use std::fmt::{Debug, Display};

/// An answer that is being written. Nothing that is written may fail: the page remembers that
/// memory ran out, or that a word was no number, and is no answer then.
#[derive(Drop)]
pub struct Page {
    /// Where memory is taken from.
    pub(crate) alloc: Global,
    text: String,
    is_torn: bool,
}

/// What is written in words of its own.
pub(crate) trait Tell {
    /// Writes it.
    fn tell(&self, page: &mut Page);
}

/// A value, which prints with all that it holds.
#[derive(Drop)]
pub(crate) struct Whole<T>(pub(crate) T);

impl<T: Debug> Display for Whole<T> {
    fn fmt<W: fmt::Write>(&self, f: &mut fmt::Formatter<W>) -> fmt::Result {
        self.0.fmt(f)
    }
}

/// Writes parts as they print, one behind the other.
#[macro_export]
macro_rules! show {
    ($page:expr; $($part:expr),+ $(,)?) => {{ $page$(.and($part))+; }};
}

/// What an option holds; the function ends with `None` where it holds nothing. This is `?`, which
/// costs twice as much to prove.
#[macro_export]
macro_rules! some {
    ($option:expr) => {
        match $option {
            Some(value) => value,
            None => return None,
        }
    };
}

/// What a result holds; the function ends with `None` where it is an error.
#[macro_export]
macro_rules! ok {
    ($result:expr) => {
        match $result.ok() {
            Some(value) => value,
            None => return None,
        }
    };
}

impl Page {
    pub(crate) fn new(alloc: Global) -> Self {
        Page {
            alloc,
            text: String::new(alloc),
            is_torn: false,
        }
    }

    /// How long the answer is so far.
    pub(crate) fn len(&self) -> usize {
        self.text.len()
    }

    /// Writes a part as it prints.
    pub(crate) fn show<T: Display + Drop>(&mut self, part: T) {
        self.is_torn |= self.text.write(part).is_err();
    }

    /// Writes a part as it prints, and hands the page on.
    pub(crate) fn and<T: Display + Drop>(&mut self, part: T) -> &mut Page {
        self.show(part);
        self
    }

    /// Writes a part with all that it holds.
    pub(crate) fn debug<T: Debug + Drop>(&mut self, part: T) {
        self.show(Whole(part));
    }

    /// A copy of a value. Where there is no memory for it, the page is no answer.
    pub(crate) fn copy<T: Clone>(&mut self, value: &T) -> Option<T> {
        let copy = value.clone().ok();
        self.is_torn |= copy.is_none();
        copy
    }

    /// Writes a copy of a value with all that it holds.
    pub(crate) fn debug_copy<T: Clone + Debug + Drop>(&mut self, value: &T) {
        if let Some(copy) = self.copy(value) {
            self.debug(copy);
        }
    }

    /// Writes a copy of a value as it prints.
    pub(crate) fn show_copy<T: Clone + Display + Drop>(&mut self, value: &T) {
        if let Some(copy) = self.copy(value) {
            self.show(copy);
        }
    }

    /// Writes a copy of a value in its own words.
    pub(crate) fn tell_copy<T: Clone + Tell + Drop>(&mut self, value: &T) {
        if let Some(copy) = self.copy(value) {
            copy.tell(self);
        }
    }

    /// Writes what stands between two parts, unless nothing was written since the answer was so
    /// long.
    pub(crate) fn separate(&mut self, start: usize, between: &str) {
        if self.len() > start {
            self.show(between);
        }
    }

    /// Writes `-`, where nothing was written since the answer was so long.
    pub(crate) fn or_none(&mut self, start: usize) {
        if self.len() == start {
            self.show("-");
        }
    }

    /// Writes each of some parts in its own words, behind those since the answer was so long.
    pub(crate) fn tell_each<T: Tell>(&mut self, start: usize, between: &str, parts: &[T]) {
        for part in parts {
            self.separate(start, between);
            part.tell(self);
        }
    }

    /// Writes each of some parts as it prints, with these texts before and behind it.
    pub(crate) fn show_each<T: Display>(&mut self, before: &str, parts: &[T], behind: &str) {
        for part in parts {
            show!(self; before, part, behind);
        }
    }

    /// Writes some parts as they print, with something between them.
    pub(crate) fn joined<T: Display>(&mut self, between: &str, parts: &[T]) {
        let start = self.len();
        for part in parts {
            self.separate(start, between);
            self.show(part);
        }
    }

    /// Writes a copy of what was read as it prints, or why nothing was.
    pub(crate) fn shown<T, E>(&mut self, read: Result<T, E>)
    where
        T: Clone + Display + Drop,
        E: Display + Drop,
    {
        match read {
            Ok(value) => self.show_copy(&value),
            Err(refusal) => self.show(refusal),
        }
    }

    /// Writes a copy of what was read with all that it holds, or why nothing was.
    pub(crate) fn debugged<T, E>(&mut self, read: Result<T, E>)
    where
        T: Clone + Debug + Drop,
        E: Display + Drop,
    {
        match read {
            Ok(value) => self.debug_copy(&value),
            Err(refusal) => self.show(refusal),
        }
    }

    /// Writes a copy of what was read in its own words, or why nothing was, as that is copied.
    pub(crate) fn told<T, E>(&mut self, read: Result<T, E>)
    where
        T: Clone + Tell + Drop,
        E: Clone + Display + Drop,
    {
        match read {
            Ok(value) => self.tell_copy(&value),
            Err(refusal) => self.show_copy(&refusal),
        }
    }

    /// The number that a word of an input is. Where it is none, the page is no answer.
    pub(crate) fn number(&mut self, word: &str) -> u32 {
        let number = word.parse::<u32>();
        self.is_torn |= number.is_err();
        number.unwrap_or(0)
    }

    /// The same as a size.
    pub(crate) fn size(&mut self, word: &str) -> usize {
        let size = word.parse::<usize>();
        self.is_torn |= size.is_err();
        size.unwrap_or(0)
    }

    /// What was written; `None` where the page is no answer.
    pub(crate) fn finish(self) -> Option<String> {
        if self.is_torn { None } else { Some(self.text) }
    }
}

// Parts of inputs.
use crate::{ok, some};
use nextest_text::{Listing, Text};
use std::alloc::Global;

/// What a part of an input stands for.
pub(crate) trait Word: Drop {
    /// What a part stands for; `None` where it is no such part, or there is no memory.
    fn of_word(alloc: Global, word: &str) -> Option<Self>;
}

impl Word for Text {
    fn of_word(alloc: Global, word: &str) -> Option<Text> {
        Text::from_str(alloc, word).ok()
    }
}

// Texts, with a comma between them, and perhaps behind the last one.
impl Word for Listing<Text> {
    fn of_word(alloc: Global, words: &str) -> Option<Listing<Text>> {
        Some(Listing::from(some!(list_of::<Text>(alloc, words, ","))))
    }
}

// What parts stand for, with something between them, and perhaps behind the last one.
pub(crate) fn list_of<T: Word>(alloc: Global, words: &str, between: &str) -> Option<Vec<T>> {
    let mut items = Vec::new(alloc);
    for word in words.split_terminator(between) {
        ok!(items.push(some!(T::of_word(alloc, word))));
    }
    Some(items)
}

// Two parts of an input, with something between them; where that isn't there, all is the first
// part, and the second is empty.
pub(crate) fn two<'a>(input: &'a str, between: &str) -> (&'a str, &'a str) {
    input.split_once(between).unwrap_or((input, ""))
}

// Three parts of an input: two words and the rest. Those that aren't there are empty.
pub(crate) fn three(input: &str) -> (&str, &str, &str) {
    let (first, rest) = two(input, " ");
    let (second, rest) = two(rest, " ");
    (first, second, rest)
}

// A number without a sign.
pub(crate) fn number(word: &str) -> Option<u32> {
    word.parse::<u32>().ok()
}

// What it takes to match a text by sets of places.
use std::alloc::Global;

/// Memory for matching texts by sets of places, one after another. It asks for more only where a
/// text has too many characters for what it has.
#[derive(Debug, Drop)]
pub struct Scratch {
    /// The text's characters.
    pub characters: Vec<char>,
    /// The places where what was read so far may end.
    pub current: Vec<bool>,
    /// The opened braces.
    pub stack: Vec<bool>,
}

impl Scratch {
    /// No memory yet.
    pub fn new(alloc: Global) -> Scratch {
        Scratch {
            characters: Vec::new(alloc),
            current: Vec::new(alloc),
            stack: Vec::new(alloc),
        }
    }
}

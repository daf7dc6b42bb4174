// Errors under one description.
ghost use Rattle.std.specs.Prelude.{◌≡◌, length};

use nextest_text::{Listing, Text};

/// Errors under one description.
#[derive(Clone, Debug, PartialEq, Eq)]
pub struct ErrorList<T> {
    /// What they have in common.
    pub description: Text,
    /// The errors, in the order in which they came.
    pub items: Listing<T>,
}

// One call drops it, whoever holds it.
impl<T: Drop> Drop for ErrorList<T> {
    fn drop(self) {
        let Self {
            description: _,
            items: _,
        } = self;
    }
}

impl<T> ErrorList<T> {
    /// How many errors there are.
    pub fn len(&self) -> usize
        ensures { result ≡ length self.now.items }
    {
        self.items.len()
    }
}

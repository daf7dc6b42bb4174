// A lister of a user's own.
use std::alloc::Global;
use test_runner_core::{Binary, ListFault, Lister, Listing, Text, Texts};

/// A suite in which every binary has one test, of this name.
#[derive(Drop)]
pub struct Suite {
    alloc: Global,
    name: Text,
    asked: Listing<Text>,
}

impl Suite {
    /// The suite of a name, of which nothing was asked yet.
    pub fn new(alloc: Global, name: Text) -> Suite {
        Suite {
            alloc,
            name,
            asked: Listing::new(alloc),
        }
    }
}

impl Lister for Suite {
    ghost use Rattle.std.specs.Prelude.{Ok, ◌∷◌, []};

    ghost answer = { λ suite _. Ok (suite.name ∷ []) };

    ghost asked = { λ suite. suite.asked };

    fn list(&mut self, binary: &Binary) -> Result<Texts, ListFault> {
        self.asked.push(binary.id.clone()?)?;
        Ok(Texts::from_strs(self.alloc, &[self.name.as_str()])?)
    }
}

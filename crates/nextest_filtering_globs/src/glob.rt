// A glob: its text and its tokens.
ghost use Rattle.std.specs.Prelude.{◌≡◌, nat_eq, chars, IfOk};
ghost use Rattle.std.proofs.Common.{rules};
ghost use Rattle.std.specs.Cmp.Rules.{comparing};
ghost use Rattle.std.specs.Cmp.Lexicographic.{pointwise, nat_list_eq_equiv};
ghost use Rattle.std.specs.Cmp.{partial_equiv_from_equiv};
ghost use Rattle.nextest_filtering_globs.specs.Syntax.{IsGlob};
ghost use Rattle.nextest_filtering_globs.specs.Glob.{Constructs};

use super::construct_error::GlobConstructError;
use super::reading::read_tokens;
use super::token::GlobToken;
use nextest_text::{Listing, Text};
use std::alloc::{AllocError, Global};
use std::marker::Model;

/// A glob pattern. In a clause it is its text and the list of its tokens.
#[derive(Debug)]
pub struct GenericGlob {
    text: Text,
    tokens: Listing<GlobToken>,
}

impl Model for GenericGlob {
    ghost use Rattle.nextest_filtering_globs.specs.Glob.{Glob, glob};
    ghost use Rattle.nextest_filtering_globs.specs.Syntax.{IsGlob};

    ghost Value = { Glob };

    ghost view = { λ it. glob it.text it.tokens };

    ghost invariant = { λ it. IsGlob it.text it.tokens };
}

// Code that drops one calls this, and doesn't look into it.
impl Drop for GenericGlob {
    fn drop(self) {
        let GenericGlob { text: _, tokens: _ } = self;
    }
}

impl GenericGlob {
    /// The glob that `text` is. `InvalidGlob` says that it is none, and want of memory says nothing
    /// of the text. The text is gone after either.
    pub fn new(alloc: Global, text: Text) -> Result<GenericGlob, GlobConstructError>
        ensures { Constructs text result }
    {
        let characters = characters_of(alloc, text.as_str())?;
        let tokens = read_tokens(alloc, characters.as_slice())?;
        let tokens = Listing::from(tokens);
        Ok(GenericGlob { text, tokens })
    }

    /// The text, lent.
    pub fn as_str(&self) -> &str
        ensures { result.now ≡ self.now.text }
    {
        self.text.as_str()
    }

    /// The tokens, lent: those that the text spells.
    pub fn tokens(&self) -> &[GlobToken]
        ensures value { result.now ≡ self.now.tokens }
        ensures spelled { IsGlob self.now.text self.now.tokens }
    {
        self.tokens.as_slice()
    }
}

// The characters of a text.
fn characters_of(alloc: Global, text: &str) -> Result<Vec<char>, AllocError>
    ensures { IfOk result (λ characters. characters.items ≡ chars text.now) }
{
    text.chars().collect(alloc)
}

impl Clone for GenericGlob {
    ghost is_clone = { λ original copy. copy ≡ original };

    fn clone(&self) -> Result<GenericGlob, AllocError> {
        Ok(GenericGlob {
            text: self.text.clone()?,
            tokens: self.tokens.clone()?,
        })
    }
}

impl PartialEq for GenericGlob {
    ghost eq = { λ x y. pointwise nat_eq x.text y.text };

    ghost laws = { Prim.search (comparing, rules, nat_list_eq_equiv) };

    fn eq(&self, other: &GenericGlob) -> bool {
        self.text == other.text
    }
}

impl Eq for GenericGlob {
    ghost laws = { Prim.search (comparing, rules, nat_list_eq_equiv) };
}

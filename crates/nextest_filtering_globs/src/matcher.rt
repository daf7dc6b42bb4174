// What a glob matches.
ghost use Rattle.std.specs.Prelude.{◌≡◌, ◌↔◌, chars, IfOk, IsTrue};
ghost use Rattle.nextest_filtering_globs.specs.Meaning.{Matches};
ghost use Rattle.nextest_filtering_globs.specs.Syntax.{IsGlob};

use super::glob::GenericGlob;
use super::matching::is_matched;
use super::places::read_characters;
use super::scratch::Scratch;
use std::alloc::{AllocError, Global};
use std::marker::Model;

/// A glob, lent, with memory of its own for matching texts one after another. It asks for more only
/// where a text has too many characters for what it has. In a clause it is the glob.
#[derive(Debug, Drop)]
pub struct GlobMatcher<'g> {
    glob: &'g GenericGlob,
    // The characters of a text that isn't ASCII.
    characters: Vec<char>,
    scratch: Scratch,
}

impl<'g> Model for GlobMatcher<'g> {
    ghost use Rattle.nextest_filtering_globs.specs.Glob.{Glob};

    ghost Value = { Glob };

    ghost view = { λ it. it.glob.now };
}

impl<'g> GlobMatcher<'g> {
    /// A matcher of this glob. It takes no memory yet.
    pub fn new(alloc: Global, glob: &'g GenericGlob) -> GlobMatcher<'g>
        ensures { result ≡ glob.now }
    {
        GlobMatcher {
            glob,
            characters: Vec::new(alloc),
            scratch: Scratch::new(alloc),
        }
    }

    /// Whether the glob matches the whole text. It fails only on allocation. It takes at most about
    /// the time of the text's characters times the glob's.
    // A call of its own, so that callers that rarely come here don't make room for it.
    #[inline(never)]
    pub fn is_match(&mut self, text: &str) -> Result<bool, AllocError>
        ensures exact { IfOk result
            (λ answer. IsTrue answer ↔ Matches self.old.tokens (chars text.now)) }
        ensures spelled { IfOk result (λ _. IsGlob self.old.text self.old.tokens) }
        ensures same { self.new ≡ self.old }
    {
        let tokens = self.glob.tokens();
        if text.is_ascii() {
            return is_matched(tokens, text.as_bytes(), &mut self.scratch);
        }
        read_characters(text, &mut self.characters)?;
        is_matched(tokens, self.characters.as_slice(), &mut self.scratch)
    }
}

impl GenericGlob {
    /// Whether the glob matches the whole text. It fails only on allocation. Who asks for many
    /// texts makes a `GlobMatcher` and keeps it.
    pub fn is_match(&self, alloc: Global, text: &str) -> Result<bool, AllocError>
        ensures { IfOk result (λ answer. IsTrue answer ↔ Matches self.now.tokens (chars text.now)) }
    {
        GlobMatcher::new(alloc, self).is_match(text)
    }
}

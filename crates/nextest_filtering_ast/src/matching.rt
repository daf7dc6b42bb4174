// Looking at names by a matcher.
ghost use Rattle.std.specs.Prelude.{◌≡◌, ◌↔◌, true, IfOk};
ghost use Rattle.nextest_filtering_ast.specs.Meaning.{Compares, MatchesName};
ghost use Rattle.nextest_filtering_ast.specs.Tree.{matcher_of};
ghost use Rattle.nextest_filtering_ast.specs.Matching.{comparison_of, text_of};

use crate::matcher::NameMatcher;
use crate::pattern::PatternMatcher;
use nextest_filtering_globs::GlobMatcher;
use std::alloc::{AllocError, Global};

/// A matcher, lent, with what it takes to look at names one after another.
#[derive(Drop)]
pub enum NameMatching<'m> {
    /// The name is this text.
    Equal(&'m str),
    /// The name contains this text.
    Contains(&'m str),
    /// The whole name matches this glob.
    Glob(GlobMatcher<'m>),
    /// A part of the name matches this regular expression. It is large, so the others don't make
    /// room for it.
    Regex(Box<PatternMatcher<'m>>),
}

impl NameMatcher {
    /// What it takes to look at many names. It fails only on allocation.
    pub fn matching(&self, alloc: Global) -> Result<NameMatching<'_>, AllocError>
        ensures comparison { IfOk result
            (λ it. comparison_of it ≡ (matcher_of self.now).comparison) }
        ensures text { IfOk result (λ it. text_of it ≡ (matcher_of self.now).text) }
    {
        match self {
            NameMatcher::Equal { value, implicit: _ } => Ok(NameMatching::Equal(value.as_str())),
            NameMatcher::Contains { value, implicit: _ } => Ok(NameMatching::Contains(
                value.as_str(),
            )),
            NameMatcher::Glob { glob, implicit: _ } => {
                Ok(NameMatching::Glob(GlobMatcher::new(alloc, glob)))
            }
            NameMatcher::Regex(pattern) => Ok(NameMatching::Regex(Box::new(
                alloc,
                pattern.matcher(alloc)?,
            )?)),
        }
    }

    /// Whether it matches a name. It fails only on allocation. Who asks for many names makes a
    /// `NameMatching` and keeps it.
    pub fn is_match(&self, alloc: Global, name: &str) -> Result<bool, AllocError>
        ensures { IfOk result
            (λ answer. (answer ≡ true) ↔ MatchesName (matcher_of self.now) name.now) }
    {
        let mut matching = self.matching(alloc)?;
        matching.is_match(name)
    }
}

impl<'m> NameMatching<'m> {
    /// Whether the matcher matches a name. It fails only on allocation.
    pub fn is_match(&mut self, name: &str) -> Result<bool, AllocError>
        ensures exact { IfOk result (λ answer. (answer ≡ true)
            ↔ Compares (comparison_of self.old) (text_of self.old) name.now) }
        ensures comparison { comparison_of self.new ≡ comparison_of self.old }
        ensures text { text_of self.new ≡ text_of self.old }
    {
        match self {
            NameMatching::Equal(text) => Ok(name == *text),
            NameMatching::Contains(text) => Ok(name.contains(*text)),
            NameMatching::Glob(glob) => glob.is_match(name),
            NameMatching::Regex(pattern) => Ok(pattern.is_match(name)),
        }
    }
}

// A regular expression with its text.
ghost use Rattle.std.specs.Prelude.{◌≡◌, ◌↔◌, true, IfOk, Err};
ghost use Rattle.nextest_filtering_ast.specs.Meaning.{IsFoundIn};
ghost use Rattle.nextest_filtering_ast.specs.declared.pattern.PatternError.TheVariants.{Syntax};
ghost use Rattle.nextest_filtering_ast.specs.Tree.{IsRegex};

use regex::{Error as RegexError, Matcher, Regex};
use std::alloc::{AllocError, AllocFailed, Global};
use std::fmt;
use std::marker::Model;
use std::sync::Arc;
use thiserror::Error;

/// A regular expression that `regex` reads. In a clause it is the list of its text's bytes. It
/// stands behind a shared pointer: trees are small, and copies share what was read.
pub struct Pattern {
    regex: Arc<Regex>,
}

impl Model for Pattern {
    ghost use Rattle.std.specs.Prelude.{List, ℕ, ◌≡◌};
    ghost use Rattle.std.specs.Arc.{arc_value};
    ghost use Rattle.regex.specs.Strings.{regex_source, regex_config, IsReadFromSource};
    ghost use Rattle.regex.specs.Patterns.{default_config};

    ghost Value = { List ℕ };

    ghost view = { λ p. regex_source (arc_value p.regex) };

    ghost invariant = { λ p. (regex_config (arc_value p.regex) ≡ default_config)
        × IsReadFromSource (arc_value p.regex) };
}

// Code that drops one calls this, and doesn't look into it.
impl Drop for Pattern {
    fn drop(self) {
        let Pattern { regex: _ } = self;
    }
}

/// Why a text is no regular expression.
#[derive(Clone, Copy, Debug, PartialEq, Eq, Error)]
pub enum PatternError {
    /// It isn't in the grammar of `regex`, or nests too deep for it.
    #[error("the text is no regular expression")]
    Syntax,
    /// There is no memory for it, which takes in that it is too large for `regex`.
    #[error("out of memory")]
    OutOfMemory,
}

impl<T: Drop> From<AllocFailed<T>> for PatternError {
    ghost use Rattle.nextest_filtering_ast.specs.declared.pattern.PatternError.TheVariants.{OutOfMemory};

    ghost from_gives = { λ _ error. error ≡ OutOfMemory };

    fn from(_: AllocFailed<T>) -> PatternError {
        PatternError::OutOfMemory
    }
}

impl Pattern {
    /// The regular expression that `text` is. `Syntax` says that it is none, and `OutOfMemory` says
    /// nothing of the text.
    pub fn new(alloc: Global, text: &str) -> Result<Pattern, PatternError>
        ensures text { IfOk result (λ it. it ≡ text.now) }
        ensures read { IfOk result (λ it. IsRegex text.now) }
        ensures refused { result ≡ Err Syntax → IsRegex text.now → ⊥ }
    {
        match Regex::new(alloc, text) {
            Ok(regex) => Ok(Pattern {
                regex: Arc::new(alloc, regex)?,
            }),
            Err(RegexError::Syntax(_)) => Err(PatternError::Syntax),
            Err(_) => Err(PatternError::OutOfMemory),
        }
    }

    /// What it takes to look for it in texts. It fails only on allocation.
    pub fn matcher(&self, alloc: Global) -> Result<PatternMatcher<'_>, AllocError>
        ensures { IfOk result (λ it. it ≡ self.now) }
    {
        Ok(PatternMatcher {
            pattern: self,
            matcher: self.regex.matcher(alloc)?,
        })
    }

    /// The text of the pattern.
    pub fn as_str(&self) -> &str
        ensures { result.now ≡ self.now }
    {
        self.regex.as_str()
    }
}

/// A regular expression, lent, with what it takes to look for it in texts one after another,
/// without more memory. In a clause it is the list of its text's bytes.
pub struct PatternMatcher<'p> {
    pattern: &'p Pattern,
    matcher: Matcher<'p>,
}

impl<'p> Model for PatternMatcher<'p> {
    ghost use Rattle.std.specs.Prelude.{List, ℕ};
    ghost use Rattle.nextest_filtering_ast.specs.Inside.{IsFor};

    ghost Value = { List ℕ };

    ghost view = { λ it. it.pattern.now };

    ghost invariant = { λ it. IsFor it.pattern.now it.matcher };
}

// Code that drops one calls this, and doesn't look into it.
impl<'p> Drop for PatternMatcher<'p> {
    fn drop(self) {
        let PatternMatcher {
            pattern: _,
            matcher: _,
        } = self;
    }
}

impl<'p> PatternMatcher<'p> {
    /// Whether a part of the text matches the regular expression.
    pub fn is_match(&mut self, text: &str) -> bool
        ensures exact { (result ≡ true) ↔ IsFoundIn self.old text.now }
        ensures same { self.new ≡ self.old }
    {
        self.matcher.is_match(text)
    }
}

impl fmt::Debug for Pattern {
    fn fmt<W: fmt::Write>(&self, f: &mut fmt::Formatter<W>) -> fmt::Result {
        fmt::Debug::fmt(self.as_str(), f)
    }
}

// The copy shares the regular expression, which isn't read again.
impl Clone for Pattern {
    ghost is_clone = { λ original copy. copy ≡ original };

    fn clone(&self) -> Result<Pattern, AllocError> {
        Ok(Pattern {
            regex: self.regex.clone()?,
        })
    }
}
